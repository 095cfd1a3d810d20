//! Sending on a channel.
ghost use Rattle.std.specs.Prelude.{◌≡◌, false, IfOk, OnErr, IfErr};
ghost use Rattle.std.specs.Option.{option_copied};
ghost use Rattle.dk_types.specs.declared.job.Out.TheVariants as out;
ghost use Rattle.dk_model.specs.Records.{channel_name};
ghost use Rattle.dk_model.specs.Platforms as platform;
ghost use Rattle.dk_model.specs.Runs as act;
ghost use Rattle.dk_txn.specs.Asks.{AsksOf, AsksNothing};
ghost use Rattle.dk_txn.specs.Does.{Does, SameChanges};
ghost use Rattle.dk_txn.specs.Refusals.{refusal_fault};
ghost use Rattle.dk_refs.specs.RecordAsks.{IsOfRecord};
ghost use Rattle.dk_refs.specs.Telling.{TellsKindOf, TellsLengthIn, kind_under};
ghost use Rattle.dk_channels.specs.Sendings.{letters_of};

use crate::channel::{Channel, record_of};
use crate::lists::is_sender;
use crate::saving::{is_too_long, too_long};
use dk_txn::{Refusal, Txn, View};
use dk_types::{Blob, ConnNo, Name, NoMemory, Out, Session};
use std::alloc::Global;

/// A message to each member, in joining order (`Channel.send`). Nothing is sent for a sender who is no member. Refuses 1, 4, 8;
/// refused, it sends to nobody.
pub fn send<V: View>(
    alloc: Global,
    txn: &mut Txn<'_, V>,
    channel: &Channel,
    sender: Option<&Session>,
    body: &Blob,
) -> Result<(), Refusal>
    ensures does { Does V.sights refusal_fault txn.old txn.new (platform.channel_send channel.now.name (option_copied sender.entry) body.now) result }
    ensures asks { AsksOf (IsOfRecord txn.old.set txn.new.set (channel_name channel.now.name)) V.sights txn.old txn.new }
    ensures refused { OnErr result (SameChanges txn.old.set txn.new.set) }
    ensures same_mode { txn.new.set.mode ≡ txn.old.set.mode }
    ensures kind { IfErr result (TellsKindOf txn.new.set (kind_under (channel_name channel.now.name))) }
    ensures length { IfErr result (TellsLengthIn txn.new.set body.now) }
{
    let (_, record) = record_of(alloc, txn, &channel.name)?;
    if is_too_long(body) {
        return Err(too_long(body));
    }
    if !is_sender(sender, record.members.as_slice()) {
        return Ok(());
    }
    send_each(alloc, txn, record.members.as_slice(), &channel.name, body)
}

/// The message that a member gets.
fn letter(channel: &Name, body: &Blob) -> Result<Out, NoMemory>
    ensures { IfOk result (λ message. message ≡ out.Channel channel.now body.now) }
{
    Ok(Out::Channel {
        channel: channel.clone()?,
        body: body.clone()?,
    })
}

/// The messages that the members get, in their order.
fn letters(
    alloc: Global,
    members: &[Session],
    channel: &Name,
    body: &Blob,
) -> Result<Vec<(ConnNo, Out)>, NoMemory>
    ensures { IfOk result (λ list. list.items ≡ letters_of (out.Channel channel.now body.now) members.now) }
{
    let mut letters = Vec::with_capacity(alloc, members.len())?;
    for member in members {
        let message = letter(channel, body)?;
        letters.push((member.conn, message))?;
    }
    Ok(letters)
}

fn send_each<V: View>(
    alloc: Global,
    txn: &mut Txn<'_, V>,
    members: &[Session],
    channel: &Name,
    body: &Blob,
) -> Result<(), Refusal>
    requires { act.is_too_long body.now ≡ false }
    ensures does { Does V.sights refusal_fault txn.old txn.new (platform.send_each members.now (out.Channel channel.now body.now)) result }
    ensures asks { AsksNothing txn.old txn.new }
    ensures refused { OnErr result (SameChanges txn.old.set txn.new.set) }
    ensures same_mode { txn.new.set.mode ≡ txn.old.set.mode }
{
    if !txn.has_room_for(members.len() as u64) {
        return Err(Refusal::TooMany);
    }
    let messages = letters(alloc, members, channel, body)?;
    txn.send_all(messages)
}
