//! The platform's records as managed objects.

use crate::managed::{Managed, decode_as};
use dk_model::{ChannelRecord, SessionRecord};
use dk_records::{ChannelForm, SessionForm, encode_channel, encode_session};
use dk_types::{Blob, NoMemory};
use std::alloc::Global;

impl Managed for SessionRecord {
    ghost use Rattle.dk_model.specs.Records.{session_bytes, session_of};
    ghost use Rattle.dk_records.specs.RecordLaws.{IsSessionRecord};
    ghost use Rattle.dk_refs.specs.RecordReads.{session_reads};

    const KIND: u16 = 0xFF01;

    ghost KIND = { 65281 };

    ghost fits = { IsSessionRecord };

    ghost bytes = { session_bytes };

    ghost of = { session_of };

    fn encode(&self, alloc: Global) -> Result<Blob, NoMemory> {
        encode_session(alloc, self)
    }

    #[tactic(auto, unfolding(dk_model::specs::Records::session_of))]
    fn decode(alloc: Global, payload: &Blob) -> Result<Option<SessionRecord>, NoMemory> {
        decode_as::<SessionRecord, SessionForm>(alloc, payload.as_slice())
    }

    ghost exact = { session_reads };
}

impl Managed for ChannelRecord {
    ghost use Rattle.dk_model.specs.Records.{channel_bytes, channel_of};
    ghost use Rattle.dk_records.specs.RecordLaws.{IsChannelRecord};
    ghost use Rattle.dk_refs.specs.RecordReads.{channel_reads};

    const KIND: u16 = 0xFF02;

    ghost KIND = { 65282 };

    ghost fits = { IsChannelRecord };

    ghost bytes = { channel_bytes };

    ghost of = { channel_of };

    fn encode(&self, alloc: Global) -> Result<Blob, NoMemory> {
        encode_channel(alloc, self)
    }

    #[tactic(auto, unfolding(dk_model::specs::Records::channel_of))]
    fn decode(alloc: Global, payload: &Blob) -> Result<Option<ChannelRecord>, NoMemory> {
        decode_as::<ChannelRecord, ChannelForm>(alloc, payload.as_slice())
    }

    ghost exact = { channel_reads };
}
