//! Saving a channel's record and a session's as one.
ghost use Rattle.std.specs.Prelude.{◌≡◌, Some, OnErr, IfErr};
ghost use Rattle.dk_types.specs.declared.item.Item.TheVariants as ask;
ghost use Rattle.dk_types.specs.declared.mode.Mode.TheVariants as mode;
ghost use Rattle.dk_types.specs.declared.fault.AppFault.TheVariants.{Refused};
ghost use Rattle.dk_model.specs.Records.{channel_bytes, session_bytes};
ghost use Rattle.dk_model.specs.Platforms as platform;
ghost use Rattle.dk_model.specs.Runs as act;
ghost use Rattle.dk_txn.specs.Asks.{AsksOf, EitherOf};
ghost use Rattle.dk_txn.specs.Does.{Does, SameChanges, Stands};
ghost use Rattle.dk_txn.specs.Refusals.{refusal_fault, TellsLength};
ghost use Rattle.dk_refs.specs.Telling.{TellsLengthIn};
ghost use Rattle.dk_channels.specs.BothRecords.{too_long_of};

use dk_model::limits::BODY_MOST_BYTES;
use dk_refs::{ChannelRecord, Managed, ManagedRef, SessionRecord};
use dk_txn::{Refusal, Txn, View};
use dk_types::Blob;
use std::alloc::Global;

/// Whether bytes are too long for an object.
pub(crate) fn is_too_long(payload: &Blob) -> bool
    ensures { result ≡ act.is_too_long payload.now }
{
    payload.as_slice().len() as u64 > BODY_MOST_BYTES
}

/// The refusal of bytes that are too long.
pub(crate) fn too_long(payload: &Blob) -> Refusal
    ensures told { refusal_fault result ≡ Some (Refused 4) }
    ensures length { TellsLength payload.now result }
{
    Refusal::TooLong {
        len: payload.as_slice().len() as u64,
    }
}

/// Saves both records, which stand, or neither where one would pass its length.
pub(crate) fn save_both<V: View>(
    alloc: Global,
    txn: &mut Txn<'_, V>,
    channel: (ManagedRef<ChannelRecord>, ChannelRecord),
    session: (ManagedRef<SessionRecord>, SessionRecord),
) -> Result<(), Refusal>
    requires platform { txn.old.set.mode ≡ mode.Platform }
    requires stand { Stands txn.old.set channel.0 × Stands txn.old.set session.0 }
    ensures does { Does V.sights refusal_fault txn.old txn.new (platform.save_both channel.0 (channel_bytes channel.1) session.0 (session_bytes session.1)) result }
    ensures asks { AsksOf (EitherOf (ask.Object channel.0) (ask.Object session.0)) V.sights txn.old txn.new }
    ensures refused { OnErr result (SameChanges txn.old.set txn.new.set) }
    ensures length { IfErr result (TellsLengthIn txn.new.set (too_long_of (channel_bytes channel.1) (session_bytes session.1))) }
{
    let first = channel.1.encode(alloc)?;
    let second = session.1.encode(alloc)?;
    if is_too_long(&first) {
        return Err(too_long(&first));
    }
    if is_too_long(&second) {
        return Err(too_long(&second));
    }
    txn.save_both(channel.0.id(), first, session.0.id(), second)
}
