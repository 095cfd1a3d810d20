//! Reads of the world, and which reads of a run still stand.
ghost use Rattle.std.specs.Prelude.{◌≡◌, IfOk};
ghost use Rattle.std.specs.Option.{option_copied};
ghost use Rattle.dk_types.specs.declared.item.Item.TheVariants as ask;
ghost use Rattle.dk_core.specs.StampedWorlds.{stamp_in, sight_of, read_now, seen_now};
ghost use Rattle.dk_core.specs.Changes.{same_seen, TellsConflict};

use crate::durable::world::StampedWorld;
use dk_types::{Answer, Item, Name, NoMemory, ObjectId, Read, Seen, TaskKey};

/// A read that no longer stands: what it saw of its item, and what is seen of it now.
#[derive(Debug, Drop, PartialEq, Eq)]
pub struct Conflict {
    pub item: Item,
    pub found: Seen,
    pub now: Seen,
}

/// What is seen where this stamp stands, or none.
fn sight_at(stamp: Option<u64>) -> Seen
    ensures { result ≡ sight_of stamp }
{
    match stamp {
        None => Seen::Absent,
        Some(stamp) => Seen::At(stamp),
    }
}

/// A copy of what may be a name.
fn copy_next(name: Option<&Name>) -> Result<Option<Name>, NoMemory>
    ensures { IfOk result (λ copy. copy ≡ option_copied name.entry) }
{
    match name {
        None => Ok(None),
        Some(name) => Ok(Some(name.clone()?)),
    }
}

impl StampedWorld {
    /// What the world answers to an item, and what is seen of it. An object is copied.
    pub fn read(&self, item: &Item) -> Result<Read, NoMemory>
        ensures { IfOk result (λ read. read ≡ read_now self.now item.now) }
    {
        match item {
            Item::Object(id) => self.read_object(*id),
            Item::Bound(name) => Ok(self.read_name(name)),
            Item::NextAfter(after) => self.read_next(after.as_ref()),
            Item::Task(key) => Ok(self.read_task(*key)),
        }
    }

    fn read_object(&self, id: ObjectId) -> Result<Read, NoMemory>
        ensures { IfOk result (λ read. read ≡ read_now self.now (ask.Object id)) }
    {
        match self.objects.get(id) {
            None => Ok(Read {
                answer: Answer::NoObject,
                seen: Seen::Absent,
            }),
            Some((object, stamp)) => Ok(Read {
                answer: Answer::Object(object.clone()?),
                seen: Seen::At(stamp),
            }),
        }
    }

    fn read_name(&self, name: &Name) -> Read
        ensures { result ≡ read_now self.now (ask.Bound name.now) }
    {
        match self.names.get(name) {
            None => Read {
                answer: Answer::NoName,
                seen: Seen::Absent,
            },
            Some((id, stamp)) => Read {
                answer: Answer::Named(id),
                seen: Seen::At(stamp),
            },
        }
    }

    fn read_next(&self, after: Option<&Name>) -> Result<Read, NoMemory>
        ensures { IfOk result (λ read. read ≡ read_now self.now (ask.NextAfter (option_copied after.entry))) }
    {
        let next = self.names.next_after(after);
        Ok(Read {
            answer: Answer::Next(copy_next(next)?),
            seen: Seen::Next(copy_next(next)?),
        })
    }

    fn read_task(&self, key: TaskKey) -> Read
        ensures { result ≡ read_now self.now (ask.Task key) }
    {
        match self.tasks.get(key) {
            None => Read {
                answer: Answer::NoTask,
                seen: Seen::Absent,
            },
            Some((_, stamp)) => Read {
                answer: Answer::Task,
                seen: Seen::At(stamp),
            },
        }
    }

    /// The stamp of what stands at an item; none where nothing does, and for a next name.
    fn stamp(&self, item: &Item) -> Option<u64>
        ensures { result ≡ stamp_in self.now item.now }
    {
        match item {
            Item::Object(id) => self.objects.get(*id).map(|(_, stamp)| stamp),
            Item::Bound(name) => self.names.get(name).map(|(_, stamp)| stamp),
            Item::NextAfter(_) => None,
            Item::Task(key) => self.tasks.get(*key).map(|(_, stamp)| stamp),
        }
    }

    /// What is seen of an item.
    fn seen(&self, item: &Item) -> Result<Seen, NoMemory>
        ensures { IfOk result (λ seen. seen ≡ seen_now self.now item.now) }
    {
        match item {
            Item::NextAfter(after) => {
                Ok(Seen::Next(copy_next(self.names.next_after(after.as_ref()))?))
            }
            Item::Object(_) | Item::Bound(_) | Item::Task(_) => Ok(sight_at(self.stamp(item))),
        }
    }

    /// Whether this is what is seen of an item. Nothing is copied.
    fn stands(&self, item: &Item, found: &Seen) -> bool
        ensures { result ≡ same_seen found.now (seen_now self.now item.now) }
    {
        match item {
            Item::NextAfter(after) => match found {
                Seen::Next(name) => name.as_ref() == self.names.next_after(after.as_ref()),
                Seen::Absent | Seen::At(_) => false,
            },
            Item::Object(_) | Item::Bound(_) | Item::Task(_) => match found {
                Seen::Absent => self.stamp(item).is_none(),
                Seen::At(stamp) => self.stamp(item) == Some(*stamp),
                Seen::Next(_) => false,
            },
        }
    }

    /// An item, what a read saw of it, and what is seen of it now.
    fn changed(&self, item: &Item, found: &Seen) -> Result<Conflict, NoMemory>
        ensures item { IfOk result (λ changed. changed.item ≡ item.now) }
        ensures found { IfOk result (λ changed. changed.found ≡ found.now) }
        ensures now { IfOk result (λ changed. changed.now ≡ seen_now self.now item.now) }
    {
        Ok(Conflict {
            item: item.clone()?,
            found: found.clone()?,
            now: self.seen(item)?,
        })
    }

    /// The first of these reads, in their order, that saw something else than is seen now. Only the answer takes memory.
    pub fn first_conflict(&self, reads: &[(Item, Read)]) -> Result<Option<Conflict>, NoMemory>
        ensures { IfOk result (TellsConflict self.now reads.now) }
    {
        for (item, read) in reads {
            if !self.stands(item, &read.seen) {
                return Ok(Some(self.changed(item, &read.seen)?));
            }
        }
        Ok(None)
    }
}
