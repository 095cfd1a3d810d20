//! The connections that a durable world opens with: those of the sessions that a stop cut off.
//!
//! A session that had begun has a record, which is bound to a name that is `$s.` and the login name. Each record that
//! counts opens a connection on which the end of the session waits. It is called once, before a core's first event, and
//! changes nothing of the world.
ghost use Rattle.std.specs.Prelude.{◌≡◌, false, Some, IfOk, OnOk};
ghost use Rattle.std.specs.FinMap as map;
ghost use Rattle.dk_types.specs.declared.number.ConnNo.{ConnNo};
ghost use Rattle.dk_model.specs.Openings.{counting, with_sessions};
ghost use Rattle.dk_connections.specs.MarkedConnections.{MarkedConnection, all_of, IsSwept};
ghost use Rattle.dk_core.specs.StampedWorlds.{durable_of};
ghost use Rattle.dk_core.specs.Firsts.{with_first, IsFresh};

use crate::durable::StampedWorld;
use dk_connections::Connections;
use dk_types::{NoMemory, Session};
use recorded::recorded_session;
use std::alloc::Global;

mod recorded;

/// Opens the connection of a session, unless one of its number is there.
fn open_first(connections: &mut Connections, session: &Session) -> Result<(), NoMemory>
    ensures opened { OnOk result (all_of connections.new.connections ≡ with_first (Some session.now) (all_of connections.old.connections)) }
    ensures fresh { OnOk result (IsFresh connections.old.connections → IsFresh connections.new.connections) }
{
    if connections.contains(session.conn) {
        return Ok(());
    }
    connections.open_ended(session)
}

/// The connections of the recorded sessions that count: of those with one number, the one of the least name.
pub fn open_connections(alloc: Global, world: &StampedWorld) -> Result<Connections, NoMemory>
    ensures world { IfOk result (λ c. all_of c.connections ≡ with_sessions (counting (durable_of world.now)) map.empty) }
    ensures unclaimed { IfOk result (λ c. (conn : ConnNo) (l : MarkedConnection) → map.get c.connections conn ≡ Some l → l.claimed ≡ false) }
    ensures swept { IfOk result (λ c. IsSwept c.connections) }
{
    let mut connections = Connections::new(alloc);
    let names = world.bound_names(alloc)?;
    for (name, bound) in names {
        if let Some(session) = recorded_session(alloc, world, name, bound.0)? {
            open_first(&mut connections, &session)?;
        }
    }
    Ok(connections)
}
