//! What the lines of a script so far leave to be known.
ghost use Rattle.std.specs.Prelude.{◌≡◌, ◌∷◌, ◌++◌, [], None, Some, true, OnOk, MatchOption};
ghost use Rattle.std.specs.FinMap as maps;
ghost use Rattle.dk_play_laws.specs.LineEvents.{nothing_said};
ghost use Rattle.dk_workers.specs.Logins.{said_of};

use dk_types::{ConnNo, Name, NoMemory};
use std::alloc::Global;
use std::collections::BTreeMap;

/// Which connection each name means, and the connections so far in their order.
#[derive(Drop)]
pub(crate) struct Logins {
    means: BTreeMap<Name, ConnNo>,
    opened: Vec<ConnNo>,
}

impl Logins {
    /// Before the first line no name means anything.
    pub(crate) fn none(alloc: Global) -> Logins
        ensures { said_of result ≡ nothing_said }
    {
        Logins {
            means: BTreeMap::new(alloc),
            opened: Vec::new(alloc),
        }
    }

    /// The connection that the name means.
    pub(crate) fn conn(&self, name: &Name) -> Option<ConnNo>
        ensures { maps.get (said_of self.now).means name.now ≡ result }
    {
        self.means.get(name).copied()
    }

    /// From now on the name means this new connection.
    pub(crate) fn log_in(&mut self, name: &Name, conn: ConnNo) -> Result<(), NoMemory>
        ensures means { OnOk result ((said_of self.new).means ≡ maps.insert (said_of self.old).means name.now conn) }
        ensures opened { OnOk result ((said_of self.new).opened ≡ (said_of self.old).opened ++ conn ∷ []) }
    {
        self.means.insert(name.clone()?, conn)?;
        self.opened.push(conn)?;
        Ok(())
    }

    /// From now on the name means nothing.
    pub(crate) fn log_out(&mut self, name: &Name)
        ensures means { (said_of self.new).means ≡ maps.remove (said_of self.old).means name.now }
        ensures opened { (said_of self.new).opened ≡ (said_of self.old).opened }
    {
        self.means.remove(name);
    }

    /// The connections so far in their order.
    pub(crate) fn opened(&self) -> &[ConnNo]
        ensures { result.now ≡ (said_of self.now).opened }
    {
        self.opened.as_slice()
    }
}
