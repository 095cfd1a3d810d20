//! The game's part of each job.
ghost use Rattle.std.specs.Prelude.{◌≡◌, ◌∷◌, [], codes, IfOk};
ghost use Rattle.dk_txn.specs.Does.{Does};
ghost use Rattle.dk_game.specs.Halted.{halt_fault};
ghost use Rattle.sword_world.specs.Rules as rules;

use crate::command::{Command, answer};
use crate::scene::room_name;
use crate::sessions::{disconnect, login};
use crate::things::{Room, Thing};
use dk_game::{Game, Halt};
use dk_model::Rules;
use dk_refs::ManagedRef;
use dk_txn::{Txn, View};
use dk_types::{Blob, ConnNo, GameId, Job, Listed, Name, NoMemory, ObjectId};
use std::alloc::Global;

/// The game. It keeps nothing outside the world.
#[derive(Clone, Copy, Debug)]
pub struct SwordWorld;

impl SwordWorld {
    /// The game. Takes no memory.
    pub fn new() -> SwordWorld {
        SwordWorld
    }
}

fn the_sword(alloc: Global) -> Result<Thing, NoMemory>
    ensures { IfOk result (λ thing. thing ≡ rules.the_sword) }
{
    let description = Name::from_text(alloc, "a shiny sword")?;
    Ok(Thing { description })
}

fn first_room(alloc: Global, sword: ObjectId) -> Result<Room, NoMemory>
    ensures { IfOk result (λ room. room ≡ record { players = []; items = sword ∷ [] }) }
{
    let mut items = Vec::new(alloc);
    items.push(sword)?;
    Ok(Room {
        players: Listed::from_vec(Vec::new(alloc)),
        items: Listed::from_vec(items),
    })
}

fn furnish<V: View>(alloc: Global, txn: &mut Txn<'_, V>, sword: ObjectId) -> Result<(), Halt>
    ensures { Does V.sights halt_fault txn.old txn.new (rules.furnish sword) result }
{
    let room = first_room(alloc, sword)?;
    let place = ManagedRef::create(alloc, txn, &room)?;
    let name = room_name(alloc)?;
    txn.bind(&name, place.id())?;
    Ok(())
}

fn initialize<V: View>(alloc: Global, txn: &mut Txn<'_, V>) -> Result<(), Halt>
    ensures { Does V.sights halt_fault txn.old txn.new rules.initialize result }
{
    let thing = the_sword(alloc)?;
    let sword = ManagedRef::create(alloc, txn, &thing)?;
    furnish(alloc, txn, sword.id())
}

fn message<V: View>(
    alloc: Global,
    txn: &mut Txn<'_, V>,
    conn: ConnNo,
    name: &Name,
    body: &Blob,
) -> Result<(), Halt>
    ensures { Does V.sights halt_fault txn.old txn.new (rules.message conn name.now body.now) result }
{
    match Command::of(body) {
        None => Ok(()),
        Some(command) => answer(alloc, txn, conn, name, command),
    }
}

impl Rules for SwordWorld {
    ghost use Rattle.sword_world.specs.Rules.{sword_rules};
    ghost use Rattle.sword_world.specs.LawfulRules.{sword_lawful};

    ghost rules = { λ game job. sword_rules job };

    ghost lawful = { λ game. sword_lawful };
}

impl Game for SwordWorld {
    ghost use Rattle.std.specs.Prelude.{codes};

    ghost id = { λ game. codes "sword-world" };

    fn id(&self) -> GameId {
        GameId::new(b"sword-world").unwrap()
    }

    fn run<V: View>(&self, alloc: Global, job: &Job, txn: &mut Txn<'_, V>) -> Result<(), Halt> {
        match job {
            Job::Initialize => initialize(alloc, txn),
            Job::Login { conn: _, name } => login(alloc, txn, name),
            Job::Message { conn, name, body } => message(alloc, txn, *conn, name, body),
            Job::Channel { .. } => Ok(()),
            Job::Disconnect { conn: _, name, .. } => disconnect(alloc, txn, name),
            Job::Task { .. } => Ok(()),
        }
    }
}
