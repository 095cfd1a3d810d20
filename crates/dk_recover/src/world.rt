//! A durable world in memory, as entries leave it.
ghost use Rattle.std.specs.Prelude.{◌≡◌, ◌<◌, ◌^◌, ◌↔◌, true, [], Some, Ok, Err, map as list_map, IfOk, OnOk, IsTrue};
ghost use Rattle.dk_model.specs.Images.{IsImageValue, world_lists};
ghost use Rattle.dk_model.specs.DurableWorlds.{DurableWorld, empty_world, last_with as greater_of};
ghost use Rattle.dk_model.specs.Keys.{key_cmp};
ghost use Rattle.dk_model.specs.Effects.{task_of, apply, after as world_after};
ghost use Rattle.dk_model.specs.Entries.{AreEffects, IsEntry};
ghost use Rattle.dk_model.specs.Recovered.{IsNext};
ghost use Rattle.dk_model.specs.Validity.{IsValid};
ghost use Rattle.dk_recover.specs.Changes.{with_put};
ghost use Rattle.dk_recover.specs.Bytes.{HaveBytes, HaveObjectBytes, HaveTaskBytes};
ghost use Rattle.dk_recover.specs.Worlds.{AreFit, is_next as is_the_next, is_committed as is_run_committed, are_made as all_made, are_scheduled as all_scheduled};
ghost use Rattle.dk_recover.specs.declared.world.Unfit.TheVariants.{DoesNotFit, NoMemory as WantOfMemory};

use crate::changes::{change, put_all};
use crate::listing::{list_names, list_objects, list_tasks};
use crate::tasks::{Tasks, add_all, change_tasks};
use dk_map::OrderedMap;
use dk_types::{Durable, Effects, Entry, Listed, Name, NoMemory, Object, ObjectId, Pending, RunNo};
use std::alloc::Global;
use std::marker::Model;
use thiserror::Error;

/// Why there is no world after what was read.
#[derive(Clone, Copy, Debug, Drop, PartialEq, Eq, Error)]
pub enum Unfit {
    /// It is not in its grammar, does not fit the world before it, or leaves a world that is not valid.
    #[error("it does not fit the world before it")]
    DoesNotFit,
    #[error("out of memory")]
    NoMemory,
}

impl From<NoMemory> for Unfit {
    ghost from_gives = { λ _ e. e ≡ WantOfMemory };

    fn from(_: NoMemory) -> Unfit {
        Unfit::NoMemory
    }
}

/// The objects, the names, the pending tasks, the number of commits and the largest committed run.
#[derive(Drop)]
pub struct World {
    objects: OrderedMap<ObjectId, Object>,
    names: OrderedMap<Name, ObjectId>,
    tasks: Tasks,
    commits: u64,
    last: Option<RunNo>,
}

impl Model for World {
    ghost use Rattle.dk_map.specs.AsMap.{map_of};
    ghost use Rattle.dk_map.specs.Entries.{IsOrdered};
    ghost use Rattle.dk_types.specs.Names.{bytes_cmp};
    ghost use Rattle.dk_model.specs.Keys.{id_cmp, key_cmp};
    ghost use Rattle.dk_model.specs.DurableWorlds.{DurableWorld};
    ghost use Rattle.dk_recover.specs.Worlds.{world_code};

    ghost Value = { DurableWorld };

    ghost coded = { world_code };

    ghost view = { λ a. record { objects = map_of id_cmp a.objects.entries; names = map_of bytes_cmp a.names.entries; tasks = map_of key_cmp a.tasks.entries; commits = a.commits; last = a.last } };

    ghost invariant = { λ a. IsOrdered id_cmp a.objects.entries × IsOrdered bytes_cmp a.names.entries × IsOrdered key_cmp a.tasks.entries };
}

// Whether a run is one up to the largest committed one.
fn is_committed(last: Option<RunNo>, run: RunNo) -> bool
    ensures { result ≡ is_run_committed last run }
{
    match last {
        None => false,
        Some(last) => run.0 <= last.0,
    }
}

// Whether all objects were made by such runs.
fn are_made(last: Option<RunNo>, objects: &[(ObjectId, Object)]) -> bool
    ensures { result ≡ all_made last objects.now }
{
    objects.iter().all(|(id, _)| is_committed(last, id.run))
}

// Whether all tasks were scheduled by such runs.
fn are_scheduled(last: Option<RunNo>, tasks: &[Pending]) -> bool
    ensures { result ≡ all_scheduled last tasks.now }
{
    tasks.iter().all(|task| is_committed(last, task.key.run))
}

// A map of these entries.
fn filled<K: Ord + Drop, V: Drop>(
    alloc: Global,
    entries: Vec<(K, V)>,
) -> Result<OrderedMap<K, V>, NoMemory>
    ensures { IfOk result (λ map. map.entries ≡ with_put K.cmp entries.items []) }
{
    let mut map = OrderedMap::new(alloc);
    map.reserve(entries.len())?;
    put_all(&mut map, entries);
    Ok(map)
}

fn filled_tasks(alloc: Global, tasks: Listed<Pending>) -> Result<Tasks, NoMemory>
    ensures { IfOk result (λ map. map.entries ≡ with_put key_cmp (list_map task_of tasks) []) }
{
    let mut map = OrderedMap::new(alloc);
    map.reserve(tasks.as_slice().len())?;
    add_all(&mut map, tasks);
    Ok(map)
}

impl World {
    /// The world before the first run. It takes no memory.
    pub fn empty(alloc: Global) -> World
        ensures { result ≡ empty_world }
    {
        World {
            objects: OrderedMap::new(alloc),
            names: OrderedMap::new(alloc),
            tasks: OrderedMap::new(alloc),
            commits: 0,
            last: None,
        }
    }

    /// The world of these lists, if it is valid.
    pub fn open(alloc: Global, durable: Durable) -> Result<World, Unfit>
        requires lists { IsImageValue 2 durable }
        requires bytes { HaveObjectBytes durable.objects × HaveTaskBytes durable.tasks }
        ensures fits { IfOk result (λ world. (world_lists world ≡ durable) × IsValid world) }
        ensures unfit { result ≡ Err DoesNotFit → (world : DurableWorld) → world_lists world ≡ durable → IsValid world → ⊥ }
    {
        let Durable {
            commits,
            last,
            objects,
            names,
            tasks,
        } = durable;
        if !are_made(last, objects.as_slice()) || !are_scheduled(last, tasks.as_slice()) {
            return Err(Unfit::DoesNotFit);
        }
        Ok(World {
            objects: filled(alloc, objects.into_vec())?,
            names: filled(alloc, names.into_vec())?,
            tasks: filled_tasks(alloc, tasks)?,
            commits,
            last,
        })
    }

    // The largest committed run once this one is committed.
    fn last_with(&self, run: RunNo) -> RunNo
        ensures { Some result ≡ greater_of self.now.last run }
    {
        match self.last {
            None => run,
            Some(last) => RunNo(last.0.max(run.0)),
        }
    }

    // Whether a commit of this number may come next, where this is the largest committed run then.
    fn is_next(&self, seq: u64, last: RunNo) -> bool
        requires small { (self.now.commits < 2 ^ 63) × (last.0 < 2 ^ 63) }
        ensures { result ≡ is_the_next self.now.commits seq last }
    {
        seq == self.commits + 1 && seq <= last.0 + 1
    }

    // Makes effects on this world, if they are those between it and the one that they make. Else it is of no use any more.
    fn make(&mut self, effects: Effects) -> Result<(), Unfit>
        requires { AreEffects 2 effects }
        ensures fits { OnOk result (AreFit self.old effects × (self.new ≡ apply effects self.old)) }
        ensures unfit { result ≡ Err DoesNotFit → AreFit self.old effects → ⊥ }
    {
        let Effects {
            written,
            removed,
            bound,
            unbound,
            added,
            dropped,
            requeued,
        } = effects;
        if !change(&mut self.objects, written, removed.as_slice())? {
            return Err(Unfit::DoesNotFit);
        }
        if !change(&mut self.names, bound, unbound.as_slice())? {
            return Err(Unfit::DoesNotFit);
        }
        let moved = requeued.as_slice();
        if !change_tasks(&mut self.tasks, added, dropped.as_slice(), moved)? {
            return Err(Unfit::DoesNotFit);
        }
        Ok(())
    }

    /// Makes a commit on this world, if its entry fits. Else it is of no use any more.
    pub(crate) fn commit(&mut self, entry: Entry) -> Result<(), Unfit>
        requires valid { IsValid self.old }
        requires entry { IsEntry 2 entry }
        requires bytes { HaveBytes entry.effects }
        ensures fits { OnOk result (IsNext self.old entry × (self.new ≡ world_after entry self.old)) }
        ensures unfit { result ≡ Err DoesNotFit → IsNext self.old entry → ⊥ }
    {
        let Entry { seq, run, effects } = entry;
        let last = self.last_with(run);
        if !self.is_next(seq, last)
            || !are_made(Some(last), effects.written.as_slice())
            || !are_scheduled(Some(last), effects.added.as_slice())
        {
            return Err(Unfit::DoesNotFit);
        }
        self.make(effects)?;
        self.commits = seq;
        self.last = Some(last);
        Ok(())
    }

    /// The world after a commit, if its entry fits this one.
    pub fn after(mut self, entry: Entry) -> Result<World, Unfit>
        requires valid { IsValid self }
        requires entry { IsEntry 2 entry }
        requires bytes { HaveBytes entry.effects }
        ensures fits { IfOk result (λ world. IsNext self entry × (world ≡ world_after entry self)) }
        ensures unfit { result ≡ Err DoesNotFit → IsNext self entry → ⊥ }
    {
        self.commit(entry)?;
        Ok(self)
    }

    /// The world as lists.
    pub fn durable(&self, alloc: Global) -> Result<Durable, NoMemory>
        ensures { IfOk result (λ durable. durable ≡ world_lists self.now) }
    {
        let objects = list_objects(alloc, &self.objects)?;
        let names = list_names(alloc, &self.names)?;
        let tasks = list_tasks(alloc, &self.tasks)?;
        Ok(Durable {
            commits: self.commits,
            last: self.last,
            objects: Listed::from_vec(objects),
            names: Listed::from_vec(names),
            tasks: Listed::from_vec(tasks),
        })
    }
}
