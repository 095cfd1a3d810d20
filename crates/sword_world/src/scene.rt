//! What a command finds: the player and the room.
ghost use Rattle.std.specs.Prelude.{◌≡◌, true, false, IfOk, MatchOption};
ghost use Rattle.dk_model.specs.Records.{is_name_too_long};
ghost use Rattle.dk_txn.specs.Does.{Does};
ghost use Rattle.dk_game.specs.Halted.{halt_fault};
ghost use Rattle.sword_world.specs.Rules as rules;

use crate::things::{Player, Room};
use dk_game::Halt;
use dk_refs::ManagedRef;
use dk_txn::{Txn, View};
use dk_types::{AppFault, Name, NoMemory};
use std::alloc::Global;

/// A player and the room, as they are kept, each with its object.
#[derive(Drop)]
pub struct Scene {
    pub me: ManagedRef<Player>,
    pub player: Player,
    pub place: ManagedRef<Room>,
    pub room: Room,
}

/// The halt of a run over a name that would pass 255 bytes.
pub const NAME_TOO_LONG: Halt = Halt::Fault(AppFault::Refused(4));

/// The name of a player's object; none where it would pass 255 bytes.
pub fn player_key(alloc: Global, name: &Name) -> Result<Option<Name>, NoMemory>
    ensures { IfOk result (λ key. MatchOption key (is_name_too_long (rules.player_name name.now) ≡ true) (λ key. (key ≡ rules.player_name name.now) × (is_name_too_long (rules.player_name name.now) ≡ false))) }
{
    name.with_prefix(alloc, "Player.")
}

/// The name that the room is bound to.
pub fn room_name(alloc: Global) -> Result<Name, NoMemory>
    ensures { IfOk result (λ name. name ≡ rules.room_name) }
{
    Name::from_text(alloc, "Room")
}

fn player_under<V: View>(
    alloc: Global,
    txn: &mut Txn<'_, V>,
    key: &Name,
) -> Result<(ManagedRef<Player>, Player), Halt>
    ensures { Does V.sights halt_fault txn.old txn.new (rules.player_under key.now) result }
{
    let id = txn.bound(key)?;
    let me = ManagedRef::of(id);
    let player = me.get(alloc, txn)?;
    Ok((me, player))
}

/// The player of a login name, and its object.
fn player_there<V: View>(
    alloc: Global,
    txn: &mut Txn<'_, V>,
    name: &Name,
) -> Result<(ManagedRef<Player>, Player), Halt>
    ensures { Does V.sights halt_fault txn.old txn.new (rules.player_there name.now) result }
{
    match player_key(alloc, name)? {
        None => Err(NAME_TOO_LONG),
        Some(key) => player_under(alloc, txn, &key),
    }
}

/// The room, and its object.
fn room_there<V: View>(
    alloc: Global,
    txn: &mut Txn<'_, V>,
) -> Result<(ManagedRef<Room>, Room), Halt>
    ensures { Does V.sights halt_fault txn.old txn.new rules.room_there result }
{
    let name = room_name(alloc)?;
    let id = txn.bound(&name)?;
    let place = ManagedRef::of(id);
    let room = place.get(alloc, txn)?;
    Ok((place, room))
}

/// The room, which the run is to change, and its object.
pub fn room_to_change<V: View>(
    alloc: Global,
    txn: &mut Txn<'_, V>,
) -> Result<(ManagedRef<Room>, Room), Halt>
    ensures { Does V.sights halt_fault txn.old txn.new rules.room_to_change result }
{
    let name = room_name(alloc)?;
    let id = txn.bound(&name)?;
    let place = ManagedRef::of(id);
    let room = place.get_for_update(alloc, txn)?;
    Ok((place, room))
}

/// What a command of the player of a login name finds.
pub fn find_scene<V: View>(alloc: Global, txn: &mut Txn<'_, V>, name: &Name) -> Result<Scene, Halt>
    ensures { Does V.sights halt_fault txn.old txn.new (rules.scene name.now) result }
{
    let (me, player) = player_there(alloc, txn, name)?;
    let (place, room) = room_there(alloc, txn)?;
    Ok(Scene {
        me,
        player,
        place,
        room,
    })
}

/// What the end of the player's session finds: the run is to change the room.
pub fn find_last_scene<V: View>(
    alloc: Global,
    txn: &mut Txn<'_, V>,
    name: &Name,
) -> Result<Scene, Halt>
    ensures { Does V.sights halt_fault txn.old txn.new (rules.last_scene name.now) result }
{
    let (me, player) = player_there(alloc, txn, name)?;
    let (place, room) = room_to_change(alloc, txn)?;
    Ok(Scene {
        me,
        player,
        place,
        room,
    })
}
