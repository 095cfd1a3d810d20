//! The commands that a player may send, and what they do.
ghost use Rattle.std.specs.Prelude.{◌≡◌, drop, codes, IfOk};
ghost use Rattle.dk_txn.specs.Does.{Does};
ghost use Rattle.dk_game.specs.Halted.{halt_fault};
ghost use Rattle.sword_world.specs.Rules as rules;

use crate::labels::labels_of;
use crate::scene::{Scene, find_scene};
use crate::texts::{already_body, bare_body, drop_body, empty_body, look_body, take_body};
use crate::things::{Player, Thing, others_of};
use dk_game::Halt;
use dk_refs::ManagedRef;
use dk_txn::{Txn, View};
use dk_types::{Blob, ConnNo, Listed, Name, ObjectId, Out};
use std::alloc::Global;

/// A command, in letters of either case.
#[derive(Clone, Copy, Debug, PartialEq, Eq)]
pub enum Command {
    /// Tells who and what is in the room.
    Look,
    /// Takes the first thing that lies in the room.
    Take,
    /// Drops what the player carries.
    Drop,
}

impl Command {
    /// The command that a message is, if it is one.
    pub fn of(body: &Blob) -> Option<Command>
        ensures { result ≡ rules.command_of body.now }
    {
        let word = body.as_slice();
        if word.eq_ignore_ascii_case(b"look") {
            Some(Command::Look)
        } else if word.eq_ignore_ascii_case(b"take") {
            Some(Command::Take)
        } else if word.eq_ignore_ascii_case(b"drop") {
            Some(Command::Drop)
        } else {
            None
        }
    }
}

/// The names of the other players in the room, in the order of entering.
fn names_of_others<V: View>(
    alloc: Global,
    txn: &mut Txn<'_, V>,
    scene: &Scene,
) -> Result<Listed<Name>, Halt>
    ensures { Does V.sights halt_fault txn.old txn.new (rules.names_of_others scene.now) result }
{
    let others = others_of(alloc, scene.me.id(), scene.room.players.as_slice())?;
    labels_of::<Player, V>(alloc, txn, others.as_slice())
}

/// What lies in the room.
fn things_in<V: View>(
    alloc: Global,
    txn: &mut Txn<'_, V>,
    scene: &Scene,
) -> Result<Listed<Name>, Halt>
    ensures { Does V.sights halt_fault txn.old txn.new (rules.things_in scene.now) result }
{
    labels_of::<Thing, V>(alloc, txn, scene.room.items.as_slice())
}

fn look<V: View>(alloc: Global, txn: &mut Txn<'_, V>, scene: &Scene) -> Result<Blob, Halt>
    ensures { Does V.sights halt_fault txn.old txn.new (rules.look scene.now) result }
{
    let names = names_of_others(alloc, txn, scene)?;
    let things = things_in(alloc, txn, scene)?;
    Ok(look_body(alloc, &names, &things)?)
}

fn thing_at<V: View>(alloc: Global, txn: &mut Txn<'_, V>, item: ObjectId) -> Result<Thing, Halt>
    ensures { Does V.sights halt_fault txn.old txn.new (rules.thing_at item) result }
{
    let thing: ManagedRef<Thing> = ManagedRef::of(item);
    Ok(thing.get(alloc, txn)?)
}

/// The first thing in the room, which is this one, goes to the player.
fn pick_up<V: View>(
    alloc: Global,
    txn: &mut Txn<'_, V>,
    scene: Scene,
    item: ObjectId,
) -> Result<Blob, Halt>
    ensures { Does V.sights halt_fault txn.old txn.new (rules.pick_up scene item (drop 1 scene.room.items)) result }
{
    let Scene {
        me,
        player,
        place,
        room,
    } = scene;
    let thing = thing_at(alloc, txn, item)?;
    place.save(alloc, txn, &room.without_first_item())?;
    me.save(alloc, txn, &player.carrying(Some(item)))?;
    Ok(take_body(alloc, &thing.description)?)
}

fn take<V: View>(alloc: Global, txn: &mut Txn<'_, V>, scene: Scene) -> Result<Blob, Halt>
    ensures { Does V.sights halt_fault txn.old txn.new (rules.take scene) result }
{
    match scene.player.carried {
        Some(item) => {
            let thing = thing_at(alloc, txn, item)?;
            Ok(already_body(alloc, &thing.description)?)
        }
        None => match scene.room.first_item() {
            Some(item) => pick_up(alloc, txn, scene, item),
            None => Ok(bare_body(alloc)?),
        },
    }
}

/// What the player carries, which is this, goes to the room.
fn put_down<V: View>(
    alloc: Global,
    txn: &mut Txn<'_, V>,
    scene: Scene,
    item: ObjectId,
) -> Result<Blob, Halt>
    ensures { Does V.sights halt_fault txn.old txn.new (rules.put_down scene item) result }
{
    let Scene {
        me,
        player,
        place,
        room,
    } = scene;
    let thing = thing_at(alloc, txn, item)?;
    let room = room.with_item(item)?;
    place.save(alloc, txn, &room)?;
    me.save(alloc, txn, &player.carrying(None))?;
    Ok(drop_body(alloc, &thing.description)?)
}

fn drop_carried<V: View>(alloc: Global, txn: &mut Txn<'_, V>, scene: Scene) -> Result<Blob, Halt>
    ensures { Does V.sights halt_fault txn.old txn.new (rules.drop scene) result }
{
    match scene.player.carried {
        Some(item) => put_down(alloc, txn, scene, item),
        None => Ok(empty_body(alloc)?),
    }
}

/// Does what the command asks for, and answers what the player is told.
fn obey<V: View>(
    alloc: Global,
    txn: &mut Txn<'_, V>,
    command: Command,
    scene: Scene,
) -> Result<Blob, Halt>
    ensures { Does V.sights halt_fault txn.old txn.new (rules.obey command scene) result }
{
    match command {
        Command::Look => look(alloc, txn, &scene),
        Command::Take => take(alloc, txn, scene),
        Command::Drop => drop_carried(alloc, txn, scene),
    }
}

/// Answers a command of the session's player by one message.
pub fn answer<V: View>(
    alloc: Global,
    txn: &mut Txn<'_, V>,
    conn: ConnNo,
    name: &Name,
    command: Command,
) -> Result<(), Halt>
    ensures { Does V.sights halt_fault txn.old txn.new (rules.answer conn name.now command) result }
{
    let scene = find_scene(alloc, txn, name)?;
    let text = obey(alloc, txn, command, scene)?;
    txn.send(conn, Out::Message(text))?;
    Ok(())
}
