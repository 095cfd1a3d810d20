//! What a reader of events knows so far.
ghost use Rattle.std.specs.Prelude.{◌≡◌, OnOk, max, min};
ghost use Rattle.dk_model.specs.Transcripts.{nothing_known, named, knowing, name_at};
ghost use Rattle.dk_types.specs.declared.limits.TheConstants.{MOMENT_MOST_MS};
ghost use Rattle.dk_script.specs.Knowledge.{known_of};

use dk_model::limits::MOMENT_MOST_MS;
use dk_types::{ConnNo, ConnectReply, Event, Name, NoMemory};
use std::alloc::Global;
use std::collections::BTreeMap;

/// The login names of connections, by their numbers, and the moment in ms.
#[derive(Drop)]
pub(crate) struct Known {
    names: BTreeMap<u64, Name>,
    moment: u64,
}

impl Known {
    pub(crate) fn nothing(alloc: Global) -> Known
        ensures { known_of result ≡ nothing_known }
    {
        Known {
            names: BTreeMap::new(alloc),
            moment: 0,
        }
    }

    /// The name under which the connection connected, or nothing.
    pub(crate) fn name_at(&self, conn: ConnNo) -> &[u8]
        ensures { result.now ≡ name_at (known_of self.now) conn }
    {
        match self.names.get(&conn.0) {
            None => b"".as_slice(),
            Some(name) => name.as_slice(),
        }
    }

    /// The moment after a tick to the given one.
    pub(crate) fn ticked(&self, moment: u64) -> u64
        ensures { result ≡ max (known_of self.now).moment (min moment MOMENT_MOST_MS) }
    {
        self.moment.max(moment.min(MOMENT_MOST_MS))
    }

    /// Takes note of what the event tells.
    pub(crate) fn learn(&mut self, event: &Event) -> Result<(), NoMemory>
        ensures { OnOk result (known_of self.new ≡ knowing (known_of self.old) event.now) }
    {
        match event {
            Event::Connect { name, reply, .. } => self.learn_name(name, *reply)?,
            Event::Tick { moment, .. } => self.moment = self.ticked(*moment),
            _ => {}
        }
        Ok(())
    }

    fn learn_name(&mut self, name: &Name, reply: ConnectReply) -> Result<(), NoMemory>
        ensures { OnOk result (known_of self.new ≡ named (known_of self.old) name.now reply) }
    {
        if let ConnectReply::Number(conn) = reply {
            self.names.insert(conn.0, name.clone()?)?;
        }
        Ok(())
    }
}
