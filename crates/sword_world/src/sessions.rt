//! How players come and go.
ghost use Rattle.std.specs.Prelude.{◌≡◌, IfOk};
ghost use Rattle.dk_txn.specs.Does.{Does};
ghost use Rattle.dk_game.specs.Halted.{halt_fault};
ghost use Rattle.sword_world.specs.Rules as rules;

use crate::scene::{NAME_TOO_LONG, Scene, find_last_scene, player_key, room_to_change};
use crate::things::{Player, Room};
use dk_game::Halt;
use dk_refs::ManagedRef;
use dk_txn::{Txn, View};
use dk_types::{Name, NoMemory, ObjectId};
use std::alloc::Global;

fn new_player<V: View>(
    alloc: Global,
    txn: &mut Txn<'_, V>,
    name: &Name,
    key: &Name,
) -> Result<ObjectId, Halt>
    requires { key.now ≡ rules.player_name name.now }
    ensures { Does V.sights halt_fault txn.old txn.new (rules.new_player name.now) result }
{
    let player = Player {
        name: name.clone()?,
        carried: None,
    };
    let made = ManagedRef::create(alloc, txn, &player)?;
    txn.bind(key, made.id())?;
    Ok(made.id())
}

fn known_player<V: View>(
    alloc: Global,
    txn: &mut Txn<'_, V>,
    name: &Name,
    key: &Name,
) -> Result<ObjectId, Halt>
    requires { key.now ≡ rules.player_name name.now }
    ensures { Does V.sights halt_fault txn.old txn.new (rules.known_player name.now) result }
{
    match txn.binding(key)? {
        Some(id) => Ok(id),
        None => new_player(alloc, txn, name, key),
    }
}

fn enter<V: View>(alloc: Global, txn: &mut Txn<'_, V>, player: ObjectId) -> Result<(), Halt>
    ensures { Does V.sights halt_fault txn.old txn.new (rules.enter player) result }
{
    let (place, found) = room_to_change(alloc, txn)?;
    let room = found.with_player(player)?;
    place.save(alloc, txn, &room)?;
    Ok(())
}

fn log_in<V: View>(alloc: Global, txn: &mut Txn<'_, V>, name: &Name, key: &Name) -> Result<(), Halt>
    requires { key.now ≡ rules.player_name name.now }
    ensures { Does V.sights halt_fault txn.old txn.new (rules.log_in name.now) result }
{
    let player = known_player(alloc, txn, name, key)?;
    enter(alloc, txn, player)
}

/// A login: the player of the name enters the room.
pub fn login<V: View>(alloc: Global, txn: &mut Txn<'_, V>, name: &Name) -> Result<(), Halt>
    ensures { Does V.sights halt_fault txn.old txn.new (rules.login name.now) result }
{
    match player_key(alloc, name)? {
        None => Err(NAME_TOO_LONG),
        Some(key) => log_in(alloc, txn, name, &key),
    }
}

/// The room without the player, and with what it carried.
fn room_left(alloc: Global, me: ObjectId, player: &Player, room: Room) -> Result<Room, NoMemory>
    ensures { IfOk result (λ left. left ≡ rules.room_left me player.now room) }
{
    let left = room.without_player(alloc, me)?;
    match player.carried {
        None => Ok(left),
        Some(item) => left.with_item(item),
    }
}

fn leave<V: View>(alloc: Global, txn: &mut Txn<'_, V>, scene: Scene) -> Result<(), Halt>
    ensures { Does V.sights halt_fault txn.old txn.new (rules.leave scene) result }
{
    let Scene {
        me,
        player,
        place,
        room,
    } = scene;
    let left = room_left(alloc, me.id(), &player, room)?;
    place.save(alloc, txn, &left)?;
    match player.carried {
        None => Ok(()),
        Some(_) => Ok(me.save(alloc, txn, &player.carrying(None))?),
    }
}

/// The end of a session: the player leaves the room, and what it carries stays there.
pub fn disconnect<V: View>(alloc: Global, txn: &mut Txn<'_, V>, name: &Name) -> Result<(), Halt>
    ensures { Does V.sights halt_fault txn.old txn.new (rules.disconnect name.now) result }
{
    let scene = find_last_scene(alloc, txn, name)?;
    leave(alloc, txn, scene)
}
