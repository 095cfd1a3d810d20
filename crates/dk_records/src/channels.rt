//! The record of a channel as bytes.
ghost use Rattle.std.specs.Prelude.{◌≡◌, IfOk, nat_lt};
ghost use Rattle.dk_types.specs.Payload.{next_u8, checked};
ghost use Rattle.dk_wire.specs.Payload.{Gives};
ghost use Rattle.dk_model.specs.Records.{channel_bytes, flag, delivery_number, delivery_of};

use dk_model::{ChannelRecord, Delivery};
use dk_types::{Blob, ConnNo, NoMemory, Session};
use dk_wire::{Form, PayloadRefused, Reader, Writer, encode, put_list, take_list};
use std::alloc::Global;

/// A member: its login name, and its connection's number.
pub struct MemberForm;

impl Form<Session> for MemberForm {
    ghost use Rattle.dk_model.specs.Records.{member_bytes, next_member};
    ghost use Rattle.dk_records.specs.RecordLaws.{IsMember, each_member_exact};

    ghost fits = { λ _. IsMember };

    ghost spelling = { member_bytes };

    ghost reading = { λ _. next_member };

    ghost exact = { each_member_exact };

    fn put(writer: &mut Writer, member: &Session) -> Result<(), NoMemory> {
        writer.put_name(&member.name)?;
        writer.put_u64(member.conn.0)?;
        Ok(())
    }

    #[tactic(auto, unfolding(dk_model::specs::Records::next_member))]
    fn take<'a>(
        alloc: Global,
        mut reader: Reader<'a>,
        _: Option<&Session>,
    ) -> Result<(Session, Reader<'a>), PayloadRefused> {
        let name = reader.next_name(alloc)?;
        let conn = reader.next_u64()?;
        let member = Session {
            name,
            conn: ConnNo(conn),
        };
        Ok((member, reader))
    }
}

/// Whether a game listens, the delivery, and the members.
pub struct ChannelForm;

impl Form<ChannelRecord> for ChannelForm {
    ghost use Rattle.dk_model.specs.Records.{channel_bytes, next_channel};
    ghost use Rattle.dk_records.specs.RecordLaws.{IsChannelRecord, each_channel_exact};

    ghost fits = { λ _. IsChannelRecord };

    ghost spelling = { channel_bytes };

    ghost reading = { λ _. next_channel };

    ghost exact = { each_channel_exact };

    fn put(writer: &mut Writer, channel: &ChannelRecord) -> Result<(), NoMemory> {
        writer.put_u8(flag_of(channel.listener))?;
        writer.put_u8(number_of(channel.delivery))?;
        put_list::<Session, MemberForm>(writer, channel.members.as_slice())?;
        Ok(())
    }

    #[tactic(auto, unfolding(dk_model::specs::Records::next_channel))]
    fn take<'a>(
        alloc: Global,
        mut reader: Reader<'a>,
        _: Option<&ChannelRecord>,
    ) -> Result<(ChannelRecord, Reader<'a>), PayloadRefused> {
        let listener = next_below(&mut reader, 2)?;
        let delivery = next_below(&mut reader, 4)?;
        let members = take_list::<Session, MemberForm>(alloc, &mut reader)?;
        let record = ChannelRecord {
            listener: listener == 1,
            delivery: delivery_from(delivery),
            members,
        };
        Ok((record, reader))
    }
}

/// A byte below an end; the fault of another is at its own place.
fn next_below(reader: &mut Reader<'_>, end: u8) -> Result<u8, PayloadRefused>
    ensures { Gives (checked (λ b. nat_lt b end) next_u8) reader.old result reader.new }
{
    let mut ahead = reader.copy();
    let byte = ahead.next_u8()?;
    if byte < end {
        *reader = ahead;
        Ok(byte)
    } else {
        Err(PayloadRefused::NotInGrammar { at: reader.at() })
    }
}

fn flag_of(listener: bool) -> u8
    ensures { result ≡ flag listener }
{
    if listener { 1 } else { 0 }
}

fn number_of(delivery: Delivery) -> u8
    ensures { result ≡ delivery_number delivery }
{
    match delivery {
        Delivery::Reliable => 0,
        Delivery::UnorderedReliable => 1,
        Delivery::OrderedUnreliable => 2,
        Delivery::Unreliable => 3,
    }
}

fn delivery_from(number: u8) -> Delivery
    ensures { result ≡ delivery_of number }
{
    match number {
        0 => Delivery::Reliable,
        1 => Delivery::UnorderedReliable,
        2 => Delivery::OrderedUnreliable,
        _ => Delivery::Unreliable,
    }
}

/// The bytes of a channel's record.
pub fn encode_channel(alloc: Global, channel: &ChannelRecord) -> Result<Blob, NoMemory>
    ensures { IfOk result (λ bytes. bytes ≡ channel_bytes channel.now) }
{
    encode::<ChannelRecord, ChannelForm>(alloc, channel)
}
