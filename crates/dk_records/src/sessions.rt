//! The record of a session as bytes.
ghost use Rattle.std.specs.Prelude.{◌≡◌, IfOk};
ghost use Rattle.dk_model.specs.Records.{session_bytes};

use crate::fields::NameForm;
use dk_model::SessionRecord;
use dk_types::{Blob, ConnNo, Name, NoMemory};
use dk_wire::{Form, PayloadRefused, Reader, Writer, encode, put_list, take_list};
use std::alloc::Global;

/// A connection's number, and the names of channels.
pub struct SessionForm;

impl Form<SessionRecord> for SessionForm {
    ghost use Rattle.dk_model.specs.Records.{session_bytes, next_session};
    ghost use Rattle.dk_records.specs.RecordLaws.{IsSessionRecord, each_session_exact};

    ghost fits = { λ _. IsSessionRecord };

    ghost spelling = { session_bytes };

    ghost reading = { λ _. next_session };

    ghost exact = { each_session_exact };

    fn put(writer: &mut Writer, session: &SessionRecord) -> Result<(), NoMemory> {
        writer.put_u64(session.conn.0)?;
        put_list::<Name, NameForm>(writer, session.channels.as_slice())?;
        Ok(())
    }

    #[tactic(auto, unfolding(dk_model::specs::Records::next_session))]
    fn take<'a>(
        alloc: Global,
        mut reader: Reader<'a>,
        _: Option<&SessionRecord>,
    ) -> Result<(SessionRecord, Reader<'a>), PayloadRefused> {
        let conn = reader.next_u64()?;
        let channels = take_list::<Name, NameForm>(alloc, &mut reader)?;
        let record = SessionRecord {
            conn: ConnNo(conn),
            channels,
        };
        Ok((record, reader))
    }
}

/// The bytes of a session's record.
pub fn encode_session(alloc: Global, session: &SessionRecord) -> Result<Blob, NoMemory>
    ensures { IfOk result (λ bytes. bytes ≡ session_bytes session.now) }
{
    encode::<SessionRecord, SessionForm>(alloc, session)
}
