//! Channels and their records.
ghost use Rattle.std.specs.Prelude.{◌≡◌, ℕ, List, Some, IfOk, OnErr, IfErr, MatchOption, true, false};
ghost use Rattle.dk_types.specs.declared.item.Item.TheVariants as ask;
ghost use Rattle.dk_types.specs.declared.mode.Mode.TheVariants as mode;
ghost use Rattle.dk_model.specs.Records.{channel_name, is_name_too_long};
ghost use Rattle.dk_model.specs.Platforms as platform;
ghost use Rattle.dk_txn.specs.Asks.{Asks, AsksOf};
ghost use Rattle.dk_txn.specs.Does.{Does, SameChanges};
ghost use Rattle.dk_txn.specs.Refusals.{refusal_fault, TellsLength};
ghost use Rattle.dk_types.specs.declared.fault.AppFault.TheVariants.{Refused};
ghost use Rattle.dk_refs.specs.RecordAsks.{IsOfRecord};
ghost use Rattle.dk_refs.specs.Telling.{TellsKindOf, TellsLengthIn, kind_under};
ghost use Rattle.dk_channels.specs.Channels as acts;

use dk_model::Mode;
use dk_refs::{ChannelRecord, Delivery, Managed, ManagedRef};
use dk_txn::{Refusal, Txn, View};
use dk_types::{Listed, Name, NoMemory, ObjectId, Session};
use std::alloc::Global;

/// A channel, by its name (`Channel`).
#[derive(Clone, Debug, Drop, PartialEq, Eq)]
pub struct Channel {
    pub name: Name,
}

/// The platform name of a channel's record; none where it would pass 255 bytes.
fn key_of(alloc: Global, name: &Name) -> Result<Option<Name>, NoMemory>
    ensures { IfOk result (λ key. MatchOption key (is_name_too_long (channel_name name.now) ≡ true) (λ key. (key ≡ channel_name name.now) × (is_name_too_long (channel_name name.now) ≡ false))) }
{
    name.with_prefix(alloc, "$c.")
}

/// The refusal of a name that is too long for a channel.
fn name_too_long(name: &Name) -> Refusal
    ensures told { refusal_fault result ≡ Some (Refused 4) }
    ensures length { TellsLength (channel_name name.now) result }
{
    Refusal::TooLong {
        len: 3 + name.as_slice().len() as u64,
    }
}

/// Makes a channel without members (`ChannelManager.createChannel`). Where a game listens, what its members send goes to the
/// game alone. Refuses 4 where `$c.` and the name pass 255 bytes, 9 where there is such a channel, 8.
pub fn create_channel<V: View>(
    alloc: Global,
    txn: &mut Txn<'_, V>,
    name: &Name,
    listener: bool,
    delivery: Delivery,
) -> Result<Channel, Refusal>
    ensures does { Does V.sights refusal_fault txn.old txn.new (acts.create_channel name.now listener delivery) result }
    ensures asks { Asks (ask.Bound (channel_name name.now)) V.sights txn.old txn.new }
    ensures refused { OnErr result (SameChanges txn.old.set txn.new.set) }
    ensures same_mode { txn.new.set.mode ≡ txn.old.set.mode }
    ensures length { IfErr result (TellsLengthIn txn.new.set (channel_name name.now)) }
{
    let channel = Channel {
        name: name.clone()?,
    };
    open_channel(alloc, txn, name, listener, delivery)?;
    Ok(channel)
}

fn open_channel<V: View>(
    alloc: Global,
    txn: &mut Txn<'_, V>,
    name: &Name,
    listener: bool,
    delivery: Delivery,
) -> Result<(), Refusal>
    ensures does { Does V.sights refusal_fault txn.old txn.new (platform.create_channel name.now listener delivery) result }
    ensures asks { Asks (ask.Bound (channel_name name.now)) V.sights txn.old txn.new }
    ensures refused { OnErr result (SameChanges txn.old.set txn.new.set) }
    ensures same_mode { txn.new.set.mode ≡ txn.old.set.mode }
    ensures length { IfErr result (TellsLengthIn txn.new.set (channel_name name.now)) }
{
    let before = txn.set_mode(Mode::Platform);
    let end = make_channel(alloc, txn, name, listener, delivery);
    txn.set_mode(before);
    end
}

fn make_channel<V: View>(
    alloc: Global,
    txn: &mut Txn<'_, V>,
    name: &Name,
    listener: bool,
    delivery: Delivery,
) -> Result<(), Refusal>
    requires { txn.old.set.mode ≡ mode.Platform }
    ensures does { Does V.sights refusal_fault txn.old txn.new (platform.new_channel name.now listener delivery) result }
    ensures asks { Asks (ask.Bound (channel_name name.now)) V.sights txn.old txn.new }
    ensures refused { OnErr result (SameChanges txn.old.set txn.new.set) }
    ensures length { IfErr result (TellsLengthIn txn.new.set (channel_name name.now)) }
{
    let key = match key_of(alloc, name)? {
        None => return Err(name_too_long(name)),
        Some(key) => key,
    };
    match txn.binding(&key)? {
        Some(_) => Err(Refusal::NameExists),
        None => record_under(alloc, txn, &key, listener, delivery),
    }
}

/// Makes the record of a channel without members, under a name.
fn record_under<V: View>(
    alloc: Global,
    txn: &mut Txn<'_, V>,
    key: &Name,
    listener: bool,
    delivery: Delivery,
) -> Result<(), Refusal>
    requires { txn.old.set.mode ≡ mode.Platform }
    ensures does { Does V.sights refusal_fault txn.old txn.new (acts.recording key.now listener delivery) result }
    ensures asks { Asks (ask.Bound key.now) V.sights txn.old txn.new }
    ensures refused { OnErr result (SameChanges txn.old.set txn.new.set) }
    ensures length { (bytes : List ℕ) → IfErr result (TellsLengthIn txn.new.set bytes) }
{
    let record = ChannelRecord {
        listener,
        delivery,
        members: Listed::from_vec(Vec::new(alloc)),
    };
    let payload = record.encode(alloc)?;
    txn.create_bound(key, ChannelRecord::KIND, payload)
}

/// The id of the record of a channel, where one is bound.
pub fn recorded<V: View>(
    alloc: Global,
    txn: &mut Txn<'_, V>,
    name: &Name,
) -> Result<Option<ObjectId>, Refusal>
    ensures does { Does V.sights refusal_fault txn.old txn.new (acts.recorded name.now) result }
    ensures asks { Asks (ask.Bound (channel_name name.now)) V.sights txn.old txn.new }
    ensures same_changes { SameChanges txn.old.set txn.new.set }
{
    match key_of(alloc, name)? {
        None => Ok(None),
        Some(key) => txn.binding(&key),
    }
}

/// The channel of a name (`ChannelManager.getChannel`). Refuses 4, 1.
pub fn get_channel<V: View>(
    alloc: Global,
    txn: &mut Txn<'_, V>,
    name: &Name,
) -> Result<Channel, Refusal>
    ensures does { Does V.sights refusal_fault txn.old txn.new (acts.get_channel name.now) result }
    ensures asks { Asks (ask.Bound (channel_name name.now)) V.sights txn.old txn.new }
    ensures refused { OnErr result (SameChanges txn.old.set txn.new.set) }
    ensures length { IfErr result (TellsLengthIn txn.new.set (channel_name name.now)) }
{
    let channel = Channel {
        name: name.clone()?,
    };
    find_channel(alloc, txn, name)?;
    Ok(channel)
}

fn find_channel<V: View>(alloc: Global, txn: &mut Txn<'_, V>, name: &Name) -> Result<(), Refusal>
    ensures does { Does V.sights refusal_fault txn.old txn.new (platform.get_channel name.now) result }
    ensures asks { Asks (ask.Bound (channel_name name.now)) V.sights txn.old txn.new }
    ensures refused { OnErr result (SameChanges txn.old.set txn.new.set) }
    ensures length { IfErr result (TellsLengthIn txn.new.set (channel_name name.now)) }
{
    match key_of(alloc, name)? {
        None => Err(name_too_long(name)),
        Some(key) => {
            txn.bound(&key)?;
            Ok(())
        }
    }
}

/// The channel's record, with the reference to it. Refuses 1, and 2, 3, 10 where the name does not lead to a record.
pub fn record_of<V: View>(
    alloc: Global,
    txn: &mut Txn<'_, V>,
    name: &Name,
) -> Result<(ManagedRef<ChannelRecord>, ChannelRecord), Refusal>
    ensures does { Does V.sights refusal_fault txn.old txn.new (platform.channel_under name.now) result }
    ensures asks { AsksOf (IsOfRecord txn.old.set txn.new.set (channel_name name.now)) V.sights txn.old txn.new }
    ensures same_changes { SameChanges txn.old.set txn.new.set }
    ensures kind { IfErr result (TellsKindOf txn.new.set (kind_under (channel_name name.now))) }
{
    match recorded(alloc, txn, name)? {
        None => Err(Refusal::NameNotBound),
        Some(id) => {
            let reference = ManagedRef::of(id);
            let record = reference.get(alloc, txn)?;
            Ok((reference, record))
        }
    }
}

/// The members, in joining order (`Channel.getSessions`). Refuses 1.
pub fn members<V: View>(
    alloc: Global,
    txn: &mut Txn<'_, V>,
    channel: &Channel,
) -> Result<Listed<Session>, Refusal>
    ensures does { Does V.sights refusal_fault txn.old txn.new (platform.members channel.now.name) result }
    ensures asks { AsksOf (IsOfRecord txn.old.set txn.new.set (channel_name channel.now.name)) V.sights txn.old txn.new }
    ensures same_changes { SameChanges txn.old.set txn.new.set }
    ensures kind { IfErr result (TellsKindOf txn.new.set (kind_under (channel_name channel.now.name))) }
{
    let (_, record) = record_of(alloc, txn, &channel.name)?;
    Ok(record.members)
}
