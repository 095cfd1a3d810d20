//! The core, and what can be read of it.
ghost use Rattle.std.specs.Prelude.{◌≡◌, ℕ, ◌≤◌, [], List, Option, IfOk};
ghost use Rattle.std.specs.FinMap as map;
ghost use Rattle.dk_types.specs.declared.event.Event.{Event};
ghost use Rattle.dk_model.specs.DurableWorlds.{DurableWorld};
ghost use Rattle.dk_model.specs.Events.{Meaning};
ghost use Rattle.dk_model.specs.Openings.{opening};
ghost use Rattle.dk_model.specs.Sights.{IsReadAt};
ghost use Rattle.dk_model.specs.Validity.{IsValid, next_of};
ghost use Rattle.dk_types.specs.declared.limits.TheConstants.{NUMBERS_END};
ghost use Rattle.dk_core.specs.Numbers.{HasNumbers, HasNumbers-prop};

use crate::claims::Claims;
use crate::durable::{StampedWorld, WorldCopy, WorldLook};
use crate::opening::open_connections;
use dk_connections::Connections;
use dk_types::{Durable, Item, NoMemory, Read, RunNo};
use std::alloc::Global;

/// The world on one thread. Its numbers are kept by every call, whatever is committed: no connection has one that is still
/// to be drawn, and there are enough for all commits and claims.
pub struct Core {
    pub(crate) world: StampedWorld,
    pub(crate) connections: Connections,
    pub(crate) claims: Claims,
    pub(crate) moment: u64,
    pub(crate) after_task: bool,
    pub(crate) alloc: Global,
    pub ghost numbers: { HasNumbers world.commits claims connections.connections } by { HasNumbers-prop world.commits claims connections.connections },
}

// Written out, so that a function which lets a core go proves one call and not the way down its trees.
impl Drop for Core {
    fn drop(self) {
        let Core {
            world: _,
            connections: _,
            claims: _,
            moment: _,
            after_task: _,
            alloc: _,
        } = self;
    }
}

/// The number that is drawn first: one more than the largest committed run, or 0 where none is committed.
fn next_number(last: Option<RunNo>) -> u64
    requires { next_of last ≤ NUMBERS_END }
    ensures { result ≡ next_of last }
{
    match last {
        None => 0,
        Some(last) => last.0 + 1,
    }
}

impl Core {
    ghost use Rattle.dk_core.specs.Listings.{world_of as world_in, listed};
    ghost use Rattle.dk_core.specs.StampedWorlds.{durable_of, read_now};
    ghost use Rattle.dk_core.specs.Cores.{world_of, Represents};

    /// The world that a durable world opens to, with a budget of claims or without: each recorded session is told of its
    /// end.
    pub fn open(alloc: Global, durable: Durable, budget: Option<u64>) -> Result<Core, NoMemory>
        requires valid { IsValid (world_in durable) }
        ensures stands { IfOk result (λ core. (rules : Meaning) → Represents rules (world_in durable) budget [] core) }
    {
        let next = next_number(durable.last);
        let world = StampedWorld::open(alloc, durable)?;
        let connections = open_connections(alloc, &world)?;
        Ok(Core {
            world,
            connections,
            claims: Claims::new(alloc, next, budget),
            moment: 0,
            after_task: false,
            alloc,
        })
    }

    /// How many runs are committed.
    pub fn commits(&self) -> u64
        ensures { result ≡ (world_of self.now).durable.commits }
    {
        self.world.commits()
    }

    /// How many tasks are pending.
    pub fn pending_len(&self) -> u64
        ensures { result ≡ map.len (world_of self.now).durable.tasks }
    {
        self.world.pending_len()
    }

    /// What the world answers to an item, and what is seen of it. An object is copied.
    pub fn read(&self, item: &Item) -> Result<Read, NoMemory>
        ensures now { IfOk result (λ read. read ≡ read_now self.now.world item.now) }
        ensures at { IfOk result (λ read. (rules : Meaning) (d : DurableWorld) (budget : Option ℕ) (events : List Event) → Represents rules d budget events self.now → IsReadAt rules (opening d budget) events item.now read) }
    {
        self.world.read(item)
    }

    /// The world as a run reads it.
    pub fn look(&self) -> WorldLook<'_>
        ensures { result.world.now ≡ self.now.world }
    {
        self.world.look()
    }

    /// A copy of the durable world, whose objects are in no order yet: who holds a lock meanwhile puts them in order behind it.
    pub fn copy(&self) -> Result<WorldCopy, NoMemory>
        ensures { IfOk result (λ copy. copy ≡ listed (world_of self.now).durable) }
    {
        self.world.copy(self.alloc)
    }

    /// A copy of the durable world as lists.
    pub fn durable(&self) -> Result<Durable, NoMemory>
        ensures { IfOk result (λ durable. durable ≡ listed (world_of self.now).durable) }
    {
        self.copy()?.in_order()
    }
}
