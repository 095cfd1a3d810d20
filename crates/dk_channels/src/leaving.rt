//! Leaving a channel.
ghost use Rattle.std.specs.Prelude.{◌≡◌, ◌++◌, ◌∷◌, [], IfOk, IfSome, OnOk, OnErr, IfErr, option_to_list};
ghost use Rattle.std.specs.List.{AllByRecursion};
ghost use Rattle.dk_types.specs.declared.item.Item.TheVariants as ask;
ghost use Rattle.dk_types.specs.declared.mode.Mode.TheVariants as mode;
ghost use Rattle.dk_model.specs.Records.{channel_bytes, session_name};
ghost use Rattle.dk_model.specs.Platforms as platform;
ghost use Rattle.dk_model.specs.Runs as act;
ghost use Rattle.dk_txn.specs.Asks.{AsksOf, EitherOf};
ghost use Rattle.dk_txn.specs.Does.{Does, SameChanges, Stands};
ghost use Rattle.dk_txn.specs.declared.refusal.Refusal.TheVariants as refusal;
ghost use Rattle.dk_txn.specs.Refusals.{refusal_fault};
ghost use Rattle.dk_refs.specs.RecordAsks.{IsOfRecord};
ghost use Rattle.dk_refs.specs.Telling.{TellsKindOf, TellsLengthIn, TellsLengthOf};
ghost use Rattle.dk_channels.specs.BothAsks.{IsOfBoth};
ghost use Rattle.dk_channels.specs.BothRecords.{kind_of_records, records_after, left};
ghost use Rattle.dk_channels.specs.AllMembers.{first_of, wrong_kind_of, long_record_of, kind_of_all, length_of_all, TellsFound, NeverTooLong, IsOfAll, IsOfChannel, IsOfEach, IsFoundOf, IsFoundAmong};

use crate::channel::{Channel, record_of};
use crate::lists::{is_member, without_channel, without_member};
use crate::saving::{is_too_long, save_both, too_long};
use dk_model::Mode;
use dk_refs::{
    ChannelRecord, Delivery, Managed, ManagedRef, SessionRecord, own_record, record_if_connected,
};
use dk_txn::{Refusal, Txn, View};
use dk_types::{Blob, Listed, Name, NoMemory, ObjectId, Session};
use std::alloc::Global;

/// Takes the session from the channel's members, and the channel from the session's record (`Channel.leave`). A leave of one
/// who is no member changes nothing. Looks at the channel first, then at the session. Refuses 1.
pub fn leave<V: View>(
    alloc: Global,
    txn: &mut Txn<'_, V>,
    channel: &Channel,
    session: &Session,
) -> Result<(), Refusal>
    ensures does { Does V.sights refusal_fault txn.old txn.new (platform.leave channel.now.name session.now) result }
    ensures asks { AsksOf (IsOfBoth txn.old.set txn.new.set channel.now.name session.now) V.sights txn.old txn.new }
    ensures refused { OnErr result (SameChanges txn.old.set txn.new.set) }
    ensures same_mode { txn.new.set.mode ≡ txn.old.set.mode }
    ensures kind { IfErr result (TellsKindOf txn.new.set (kind_of_records channel.now.name session.now)) }
    ensures length { IfErr result (TellsLengthOf txn.old.set txn.new.set (records_after left channel.now.name session.now)) }
{
    let before = txn.set_mode(Mode::Platform);
    let end = step_out(alloc, txn, &channel.name, session);
    txn.set_mode(before);
    end
}

fn step_out<V: View>(
    alloc: Global,
    txn: &mut Txn<'_, V>,
    name: &Name,
    session: &Session,
) -> Result<(), Refusal>
    requires { txn.old.set.mode ≡ mode.Platform }
    ensures does { Does V.sights refusal_fault txn.old txn.new (act.and_then (platform.channel_under name.now) (λ c. act.and_then (platform.own_record session.now) (λ r. platform.leave_records name.now session.now c r))) result }
    ensures asks { AsksOf (IsOfBoth txn.old.set txn.new.set name.now session.now) V.sights txn.old txn.new }
    ensures refused { OnErr result (SameChanges txn.old.set txn.new.set) }
    ensures kind { IfErr result (TellsKindOf txn.new.set (kind_of_records name.now session.now)) }
    ensures length { IfErr result (TellsLengthOf txn.old.set txn.new.set (records_after left name.now session.now)) }
{
    let channel = record_of(alloc, txn, name)?;
    let own = own_record(alloc, txn, session)?;
    leave_records(alloc, txn, name, session, channel, own)
}

fn leave_records<V: View>(
    alloc: Global,
    txn: &mut Txn<'_, V>,
    name: &Name,
    session: &Session,
    channel: (ManagedRef<ChannelRecord>, ChannelRecord),
    own: (ManagedRef<SessionRecord>, SessionRecord),
) -> Result<(), Refusal>
    requires platform { txn.old.set.mode ≡ mode.Platform }
    requires stand { Stands txn.old.set channel.0 × Stands txn.old.set own.0 }
    ensures does { Does V.sights refusal_fault txn.old txn.new (platform.leave_records name.now session.now channel own) result }
    ensures asks { AsksOf (EitherOf (ask.Object channel.0) (ask.Object own.0)) V.sights txn.old txn.new }
    ensures refused { OnErr result (SameChanges txn.old.set txn.new.set) }
    ensures length { IfErr result (TellsLengthIn txn.new.set (left name.now session.now channel.1 own.1)) }
{
    if !is_member(session, channel.1.members.as_slice()) {
        return Ok(());
    }
    let (channel, record) = channel;
    let record = ChannelRecord {
        listener: record.listener,
        delivery: record.delivery,
        members: without_member(alloc, record.members, session)?,
    };
    let (own, sessions) = own;
    let sessions = SessionRecord {
        conn: sessions.conn,
        channels: without_channel(alloc, sessions.channels, name)?,
    };
    save_both(alloc, txn, (channel, record), (own, sessions))
}

/// Every member leaves, in joining order (`Channel.leaveAll`), or none. A member whose session is not recorded with its number
/// loses its place among the members alone. All records are looked at first, and saved afterwards. Refuses 1, 2, 3 and 10 of
/// the channel's record, then 2, 3 and 10 of the members' and 4 over one that is too long even without the channel.
pub fn leave_all<V: View>(
    alloc: Global,
    txn: &mut Txn<'_, V>,
    channel: &Channel,
) -> Result<(), Refusal>
    ensures does { Does V.sights refusal_fault txn.old txn.new (platform.leave_all channel.now.name) result }
    ensures asks { AsksOf (IsOfAll txn.old.set txn.new.set channel.now.name) V.sights txn.old txn.new }
    ensures refused { OnErr result (SameChanges txn.old.set txn.new.set) }
    ensures same_mode { txn.new.set.mode ≡ txn.old.set.mode }
    ensures kind { IfErr result (TellsFound refusal.WrongKind txn.old.set txn.new.set (kind_of_all channel.now.name)) }
    ensures length { IfErr result (TellsFound refusal.TooLong txn.old.set txn.new.set (length_of_all channel.now.name)) }
    ensures never { IfErr result (NeverTooLong txn.old.set txn.new.set) }
{
    let before = txn.set_mode(Mode::Platform);
    let end = empty_out(alloc, txn, &channel.name);
    txn.set_mode(before);
    end
}

fn empty_out<V: View>(alloc: Global, txn: &mut Txn<'_, V>, name: &Name) -> Result<(), Refusal>
    requires { txn.old.set.mode ≡ mode.Platform }
    ensures does { Does V.sights refusal_fault txn.old txn.new (act.and_then (platform.channel_under name.now) (λ c. platform.leave_members name.now c c.1.members)) result }
    ensures asks { AsksOf (IsOfAll txn.old.set txn.new.set name.now) V.sights txn.old txn.new }
    ensures refused { OnErr result (SameChanges txn.old.set txn.new.set) }
    ensures kind { IfErr result (TellsFound refusal.WrongKind txn.old.set txn.new.set (kind_of_all name.now)) }
    ensures length { IfErr result (TellsFound refusal.TooLong txn.old.set txn.new.set (length_of_all name.now)) }
{
    let channel = record_of(alloc, txn, name)?;
    leave_members(alloc, txn, name, channel)
}

/// The bytes of a channel's record without members.
fn emptied(alloc: Global, listener: bool, delivery: Delivery) -> Result<Blob, NoMemory>
    ensures { IfOk result (λ payload. payload ≡ channel_bytes (record { listener = listener; delivery = delivery; members = [] })) }
{
    let record = ChannelRecord {
        listener,
        delivery,
        members: Listed::from_vec(Vec::new(alloc)),
    };
    record.encode(alloc)
}

/// A record's bytes, put before those of others.
fn put_first(
    id: ObjectId,
    payload: Blob,
    others: Listed<(ObjectId, Blob)>,
) -> Result<Vec<(ObjectId, Blob)>, NoMemory>
    ensures { IfOk result (λ all. all.items ≡ (id, payload) ∷ others) }
{
    let mut all = others.into_vec();
    all.insert(0, (id, payload))?;
    Ok(all)
}

fn leave_members<V: View>(
    alloc: Global,
    txn: &mut Txn<'_, V>,
    name: &Name,
    channel: (ManagedRef<ChannelRecord>, ChannelRecord),
) -> Result<(), Refusal>
    requires platform { txn.old.set.mode ≡ mode.Platform }
    requires stands { Stands txn.old.set channel.0 }
    ensures does { Does V.sights refusal_fault txn.old txn.new (platform.leave_members name.now channel channel.1.members) result }
    ensures asks { AsksOf (IsOfChannel txn.old.set txn.new.set channel.0 channel.1.members) V.sights txn.old txn.new }
    ensures refused { OnErr result (SameChanges txn.old.set txn.new.set) }
    ensures kind { IfErr result (TellsFound refusal.WrongKind txn.old.set txn.new.set (first_of wrong_kind_of channel.1.members)) }
    ensures length { IfErr result (TellsFound refusal.TooLong txn.old.set txn.new.set (first_of (long_record_of name.now) channel.1.members)) }
{
    let (place, record) = channel;
    let members = record.members;
    if members.as_slice().is_empty() {
        return Ok(());
    }
    let others = records_without(alloc, txn, name, members.as_slice())?;
    let payload = emptied(alloc, record.listener, record.delivery)?;
    let records = put_first(place.id(), payload, others)?;
    txn.save_all(records)
}

/// Puts a record's bytes last, where there are some.
fn put_last(
    found: &mut Vec<(ObjectId, Blob)>,
    one: Option<(ObjectId, Blob)>,
) -> Result<(), NoMemory>
    ensures { OnOk result (found.new.items ≡ found.old.items ++ option_to_list one) }
{
    match one {
        None => {}
        Some(one) => found.push(one)?,
    }
    Ok(())
}

/// The records of those of the members that are recorded with their numbers, as they are without the channel: their ids, and
/// their bytes.
fn records_without<V: View>(
    alloc: Global,
    txn: &mut Txn<'_, V>,
    name: &Name,
    members: &[Session],
) -> Result<Listed<(ObjectId, Blob)>, Refusal>
    ensures does { Does V.sights refusal_fault txn.old txn.new (platform.records_without name.now members.now) result }
    ensures asks { AsksOf (IsOfEach txn.old.set txn.new.set members.now) V.sights txn.old txn.new }
    ensures same_changes { SameChanges txn.old.set txn.new.set }
    ensures found { IfOk result (AllByRecursion (IsFoundAmong txn.old.set txn.new.set members.now)) }
    ensures kind { IfErr result (TellsFound refusal.WrongKind txn.old.set txn.new.set (first_of wrong_kind_of members.now)) }
    ensures length { IfErr result (TellsFound refusal.TooLong txn.old.set txn.new.set (first_of (long_record_of name.now) members.now)) }
{
    let mut found = Vec::new(alloc);
    for member in members {
        let one = record_without(alloc, txn, name, member)?;
        put_last(&mut found, one)?;
    }
    Ok(Listed::from_vec(found))
}

/// The bytes of a session's record without the channel.
fn encoded_without(alloc: Global, name: &Name, sessions: SessionRecord) -> Result<Blob, NoMemory>
    ensures { IfOk result (λ payload. payload ≡ platform.bytes_without name.now sessions) }
{
    let sessions = SessionRecord {
        conn: sessions.conn,
        channels: without_channel(alloc, sessions.channels, name)?,
    };
    sessions.encode(alloc)
}

/// The record of a session that is recorded with its number, as it is without the channel: its id, and its bytes.
fn record_without<V: View>(
    alloc: Global,
    txn: &mut Txn<'_, V>,
    name: &Name,
    session: &Session,
) -> Result<Option<(ObjectId, Blob)>, Refusal>
    ensures does { Does V.sights refusal_fault txn.old txn.new (platform.record_without name.now session.now) result }
    ensures asks { AsksOf (IsOfRecord txn.old.set txn.new.set (session_name session.now.name)) V.sights txn.old txn.new }
    ensures same_changes { SameChanges txn.old.set txn.new.set }
    ensures found { IfOk result (λ o. IfSome o (IsFoundOf txn.old.set txn.new.set session.now)) }
    ensures kind { IfErr result (TellsFound refusal.WrongKind txn.old.set txn.new.set (wrong_kind_of session.now)) }
    ensures length { IfErr result (TellsFound refusal.TooLong txn.old.set txn.new.set (long_record_of name.now session.now)) }
{
    match record_if_connected(alloc, txn, session)? {
        None => Ok(None),
        Some(own) => {
            let (place, sessions) = own;
            let payload = encoded_without(alloc, name, sessions)?;
            if is_too_long(&payload) {
                return Err(too_long(&payload));
            }
            Ok(Some((place.id(), payload)))
        }
    }
}
