//! How what the game keeps is written in bytes.
ghost use Rattle.std.specs.Prelude.{◌≡◌, ◌++◌, OnOk, nat_lt};
ghost use Rattle.dk_types.specs.Payload.{next_u8, checked};
ghost use Rattle.dk_wire.specs.Payload.{Gives};
ghost use Rattle.sword_world.specs.Things.{carried_bytes, next_carried, next_item};

use crate::things::{Player, Room, Thing};
use dk_records::IdForm;
use dk_types::{NoMemory, ObjectId};
use dk_wire::{Form, PayloadRefused, Reader, Writer, put_list, take_list};
use std::alloc::Global;

/// The players, and what lies in the room.
pub struct RoomForm;

impl Form<Room> for RoomForm {
    ghost use Rattle.sword_world.specs.Things.{room_bytes, next_room};
    ghost use Rattle.sword_world.specs.ThingLaws.{IsRoom, each_room_exact};

    ghost fits = { λ _. IsRoom };

    ghost spelling = { room_bytes };

    ghost reading = { λ _. next_room };

    ghost exact = { each_room_exact };

    fn put(writer: &mut Writer, room: &Room) -> Result<(), NoMemory> {
        put_list::<ObjectId, IdForm>(writer, room.players.as_slice())?;
        put_list::<ObjectId, IdForm>(writer, room.items.as_slice())?;
        Ok(())
    }

    #[tactic(auto, unfolding(crate::specs::Things::next_room))]
    fn take<'a>(
        alloc: Global,
        mut reader: Reader<'a>,
        _: Option<&Room>,
    ) -> Result<(Room, Reader<'a>), PayloadRefused> {
        let players = take_list::<ObjectId, IdForm>(alloc, &mut reader)?;
        let items = take_list::<ObjectId, IdForm>(alloc, &mut reader)?;
        Ok((Room { players, items }, reader))
    }
}

/// The description.
pub struct ThingForm;

impl Form<Thing> for ThingForm {
    ghost use Rattle.sword_world.specs.Things.{thing_bytes, next_thing};
    ghost use Rattle.sword_world.specs.ThingLaws.{IsThing, each_thing_exact};

    ghost fits = { λ _. IsThing };

    ghost spelling = { thing_bytes };

    ghost reading = { λ _. next_thing };

    ghost exact = { each_thing_exact };

    fn put(writer: &mut Writer, thing: &Thing) -> Result<(), NoMemory> {
        writer.put_name(&thing.description)
    }

    #[tactic(auto, unfolding(crate::specs::Things::next_thing))]
    fn take<'a>(
        alloc: Global,
        mut reader: Reader<'a>,
        _: Option<&Thing>,
    ) -> Result<(Thing, Reader<'a>), PayloadRefused> {
        let description = reader.next_name(alloc)?;
        Ok((Thing { description }, reader))
    }
}

/// The name, and what is carried.
pub struct PlayerForm;

impl Form<Player> for PlayerForm {
    ghost use Rattle.sword_world.specs.Things.{player_bytes, next_player};
    ghost use Rattle.sword_world.specs.ThingLaws.{IsPlayer, each_player_exact};

    ghost fits = { λ _. IsPlayer };

    ghost spelling = { player_bytes };

    ghost reading = { λ _. next_player };

    ghost exact = { each_player_exact };

    fn put(writer: &mut Writer, player: &Player) -> Result<(), NoMemory> {
        writer.put_name(&player.name)?;
        put_carried(writer, player.carried)
    }

    #[tactic(auto, unfolding(crate::specs::Things::next_player))]
    fn take<'a>(
        alloc: Global,
        mut reader: Reader<'a>,
        _: Option<&Player>,
    ) -> Result<(Player, Reader<'a>), PayloadRefused> {
        let name = reader.next_name(alloc)?;
        let carried = take_carried(&mut reader)?;
        Ok((Player { name, carried }, reader))
    }
}

fn put_carried(writer: &mut Writer, carried: Option<ObjectId>) -> Result<(), NoMemory>
    ensures { OnOk result (writer.new ≡ writer.old ++ carried_bytes carried) }
{
    match carried {
        None => writer.put_u8(0),
        Some(id) => {
            writer.put_u8(1)?;
            writer.put_id(id)?;
            Ok(())
        }
    }
}

#[tactic(auto, unfolding(crate::specs::Things::next_carried))]
fn take_carried(reader: &mut Reader<'_>) -> Result<Option<ObjectId>, PayloadRefused>
    ensures { Gives next_carried reader.old result reader.new }
{
    let mut ahead = reader.copy();
    let flag = ahead.next_u8()?;
    if flag >= 2 {
        return Err(PayloadRefused::NotInGrammar { at: reader.at() });
    }
    let item = take_item(flag, &mut ahead)?;
    *reader = ahead;
    Ok(item)
}

/// What follows the first byte.
fn take_item(flag: u8, reader: &mut Reader<'_>) -> Result<Option<ObjectId>, PayloadRefused>
    ensures { Gives (next_item flag) reader.old result reader.new }
{
    if flag == 0 {
        return Ok(None);
    }
    let id = reader.next_id()?;
    Ok(Some(id))
}
