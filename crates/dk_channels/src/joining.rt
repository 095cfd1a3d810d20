//! Joining a channel.
ghost use Rattle.std.specs.Prelude.{◌≡◌, OnErr, IfErr};
ghost use Rattle.dk_types.specs.declared.item.Item.TheVariants as ask;
ghost use Rattle.dk_types.specs.declared.mode.Mode.TheVariants as mode;
ghost use Rattle.dk_model.specs.Platforms as platform;
ghost use Rattle.dk_model.specs.Runs as act;
ghost use Rattle.dk_txn.specs.Asks.{AsksOf, EitherOf};
ghost use Rattle.dk_txn.specs.Does.{Does, SameChanges, Stands};
ghost use Rattle.dk_txn.specs.Refusals.{refusal_fault};
ghost use Rattle.dk_refs.specs.Telling.{TellsKindOf, TellsLengthIn, TellsLengthOf};
ghost use Rattle.dk_channels.specs.BothAsks.{IsOfBoth};
ghost use Rattle.dk_channels.specs.BothRecords.{kind_of_records, records_after, joined};

use crate::channel::{Channel, record_of};
use crate::lists::{is_member, with_channel, with_member};
use crate::saving::save_both;
use dk_model::Mode;
use dk_refs::{ChannelRecord, ManagedRef, SessionRecord, own_record};
use dk_txn::{Refusal, Txn, View};
use dk_types::{Name, Session};
use std::alloc::Global;

/// Puts the session last among the channel's members, and the channel last in the session's record (`Channel.join`). A second
/// join changes nothing. Looks at the channel first, then at the session. Refuses 1, and 4 where a record would pass its length.
pub fn join<V: View>(
    alloc: Global,
    txn: &mut Txn<'_, V>,
    channel: &Channel,
    session: &Session,
) -> Result<(), Refusal>
    ensures does { Does V.sights refusal_fault txn.old txn.new (platform.join channel.now.name session.now) result }
    ensures asks { AsksOf (IsOfBoth txn.old.set txn.new.set channel.now.name session.now) V.sights txn.old txn.new }
    ensures refused { OnErr result (SameChanges txn.old.set txn.new.set) }
    ensures same_mode { txn.new.set.mode ≡ txn.old.set.mode }
    ensures kind { IfErr result (TellsKindOf txn.new.set (kind_of_records channel.now.name session.now)) }
    ensures length { IfErr result (TellsLengthOf txn.old.set txn.new.set (records_after joined channel.now.name session.now)) }
{
    let before = txn.set_mode(Mode::Platform);
    let end = enter(alloc, txn, &channel.name, session);
    txn.set_mode(before);
    end
}

fn enter<V: View>(
    alloc: Global,
    txn: &mut Txn<'_, V>,
    name: &Name,
    session: &Session,
) -> Result<(), Refusal>
    requires { txn.old.set.mode ≡ mode.Platform }
    ensures does { Does V.sights refusal_fault txn.old txn.new (act.and_then (platform.channel_under name.now) (λ c. act.and_then (platform.own_record session.now) (λ r. platform.join_records name.now session.now c r))) result }
    ensures asks { AsksOf (IsOfBoth txn.old.set txn.new.set name.now session.now) V.sights txn.old txn.new }
    ensures refused { OnErr result (SameChanges txn.old.set txn.new.set) }
    ensures kind { IfErr result (TellsKindOf txn.new.set (kind_of_records name.now session.now)) }
    ensures length { IfErr result (TellsLengthOf txn.old.set txn.new.set (records_after joined name.now session.now)) }
{
    let channel = record_of(alloc, txn, name)?;
    let own = own_record(alloc, txn, session)?;
    join_records(alloc, txn, name, session, channel, own)
}

fn join_records<V: View>(
    alloc: Global,
    txn: &mut Txn<'_, V>,
    name: &Name,
    session: &Session,
    channel: (ManagedRef<ChannelRecord>, ChannelRecord),
    own: (ManagedRef<SessionRecord>, SessionRecord),
) -> Result<(), Refusal>
    requires platform { txn.old.set.mode ≡ mode.Platform }
    requires stand { Stands txn.old.set channel.0 × Stands txn.old.set own.0 }
    ensures does { Does V.sights refusal_fault txn.old txn.new (platform.join_records name.now session.now channel own) result }
    ensures asks { AsksOf (EitherOf (ask.Object channel.0) (ask.Object own.0)) V.sights txn.old txn.new }
    ensures refused { OnErr result (SameChanges txn.old.set txn.new.set) }
    ensures length { IfErr result (TellsLengthIn txn.new.set (joined name.now session.now channel.1 own.1)) }
{
    if is_member(session, channel.1.members.as_slice()) {
        return Ok(());
    }
    let (channel, record) = channel;
    let record = ChannelRecord {
        listener: record.listener,
        delivery: record.delivery,
        members: with_member(record.members, session)?,
    };
    let (own, sessions) = own;
    let sessions = SessionRecord {
        conn: sessions.conn,
        channels: with_channel(sessions.channels, name)?,
    };
    save_both(alloc, txn, (channel, record), (own, sessions))
}
