//! The stores of the world: what a call costs where there are many entries, and what a hand costs.
//! Each figure is the nanoseconds of all timed calls together.

use crate::tasks::{self, TaskCall, of_tasks};
use dk_names::Names;
use dk_objects::Objects;
use dk_outbox::{Outbox, Ready};
use dk_types::{Blob, Name, Object, ObjectId, Out, RunNo};
use std::alloc::Global;
use std::time::{Clock, Instant};

/// So many calls are timed together.
pub(crate) const CALLS: u64 = 1_000;

/// So often.
pub(crate) const ROUNDS: u64 = 200;

/// So many messages are handed.
const MESSAGES: u64 = 262_144;

/// The keys of calls in turn are so far apart. It shares no divisor with a power of ten.
const STRIDE: u64 = 7_919;

/// What is timed.
#[derive(Clone, Copy)]
pub enum Timed {
    /// A call of `Names` with so many names bound.
    Names(Call),
    /// A call of `Objects` with so many objects.
    Objects(Call),
    /// A call of `Tasks` with so many tasks.
    Tasks(TaskCall),
    /// Hands of so many messages where 4,096 wait.
    HandOfMany,
    /// Hands of so many messages where no more wait.
    HandOfAll,
}

/// A call of a store that is timed.
#[derive(Clone, Copy, PartialEq, Eq)]
pub enum Call {
    Get,
    NextAfter,
    Put,
    Remove,
}

/// The call of this word.
pub fn named(word: &str) -> Option<Timed> {
    match word {
        "names-get" => Some(Timed::Names(Call::Get)),
        "names-next-after" => Some(Timed::Names(Call::NextAfter)),
        "names-put" => Some(Timed::Names(Call::Put)),
        "names-remove" => Some(Timed::Names(Call::Remove)),
        "objects-get" => Some(Timed::Objects(Call::Get)),
        "objects-put" => Some(Timed::Objects(Call::Put)),
        "objects-remove" => Some(Timed::Objects(Call::Remove)),
        "hand-of-many" => Some(Timed::HandOfMany),
        "hand-of-all" => Some(Timed::HandOfAll),
        _ => tasks::named(word).map(Timed::Tasks),
    }
}

/// The nanoseconds, or nothing where memory or the clock is wanting.
pub fn time<R: AllocGlobal + Clock>(rt: &R, timed: Timed, number: u32) -> Option<u64> {
    match timed {
        Timed::Names(call) => of_names(rt, call, number as u64),
        Timed::Objects(call) => of_objects(rt, call, number as u64),
        Timed::Tasks(call) => of_tasks(rt, call, number as u64),
        Timed::HandOfMany => of_hands(rt, 4_096, number),
        Timed::HandOfAll => of_hands(rt, number as u64, number),
    }
}

pub(crate) fn nanoseconds<R: Clock>(rt: &R, start: &Instant) -> Option<u64> {
    u64::try_from(start.elapsed(rt).ok()?.as_nanos()).ok()
}

/// The place of a call's key among the entries, scattered over them.
pub(crate) fn scattered(n: u64, entries: u64) -> u64 {
    n.wrapping_mul(STRIDE) % entries.max(1)
}

fn id_of(key: u64) -> ObjectId {
    ObjectId {
        run: RunNo(key / 8),
        k: (key % 8) as u32,
    }
}

fn name_of(alloc: Global, key: u64) -> Option<Name> {
    let text = format!(in alloc; "Player.{key:08}").ok()?;
    Name::new(alloc, text.as_bytes()).ok()
}

/// Names whose keys are even.
fn names_of(alloc: Global, entries: u64) -> Option<Names> {
    let mut names = Names::new(alloc);
    names.reserve(entries.saturating_add(CALLS)).ok()?;
    for n in 0..entries {
        let at = scattered(n, entries);
        let name = name_of(alloc, at.wrapping_mul(2))?;
        if names.spare() > 0 {
            names.put(name, id_of(at), n);
        }
    }
    Some(names)
}

/// The names of a round. For `put` and `remove` they stand between the others.
fn round_names(alloc: Global, call: Call, round: u64, entries: u64) -> Option<Vec<Name>> {
    let between = (call == Call::Put || call == Call::Remove) as u64;
    let mut names = Vec::new(alloc);
    for n in 0..CALLS {
        let at = scattered(round.wrapping_mul(CALLS).wrapping_add(n), entries);
        let key = at.wrapping_mul(2).wrapping_add(between);
        names.push(name_of(alloc, key)?).ok()?;
    }
    Some(names)
}

fn get_names(names: &Names, round: &[Name]) -> usize {
    round.iter().filter(|n| names.get(n).is_some()).count()
}

fn next_names(names: &Names, round: &[Name]) -> usize {
    round
        .iter()
        .filter(|n| names.next_after(Some(n)).is_some())
        .count()
}

fn put_names(names: &mut Names, round: Vec<Name>) {
    for name in round {
        if names.spare() > 0 {
            names.put(name, id_of(0), 0);
        }
    }
}

fn remove_names(names: &mut Names, round: &[Name]) {
    for name in round {
        names.remove(name);
    }
}

fn of_names<R: AllocGlobal + Clock>(rt: &R, call: Call, entries: u64) -> Option<u64> {
    let alloc = rt.alloc();
    let mut names = names_of(alloc, entries)?;
    let mut spent: u64 = 0;
    for round in 0..ROUNDS {
        let keys = round_names(alloc, call, round, entries)?;
        let again = round_names(alloc, call, round, entries)?;
        if call == Call::Remove {
            put_names(&mut names, keys);
            let start = Instant::now(rt).ok()?;
            remove_names(&mut names, again.as_slice());
            spent = spent.saturating_add(nanoseconds(rt, &start)?);
            continue;
        }
        let start = Instant::now(rt).ok()?;
        match call {
            Call::Get => {
                if get_names(&names, keys.as_slice()) == 0 {
                    return None;
                }
            }
            Call::NextAfter => {
                if next_names(&names, keys.as_slice()) == 0 {
                    return None;
                }
            }
            _ => put_names(&mut names, keys),
        }
        spent = spent.saturating_add(nanoseconds(rt, &start)?);
        if call == Call::Put {
            remove_names(&mut names, again.as_slice());
        }
    }
    Some(spent)
}

fn object_of(alloc: Global, n: u64) -> Option<Object> {
    let bytes = Blob::copy_of(alloc, &n.to_be_bytes()).ok()?;
    Some(Object { kind: 1, bytes })
}

/// Objects whose keys are even.
fn objects_of(alloc: Global, entries: u64) -> Option<Objects> {
    let mut objects = Objects::new(alloc);
    objects.reserve(entries.saturating_add(CALLS)).ok()?;
    for n in 0..entries {
        let key = scattered(n, entries).wrapping_mul(2);
        let object = object_of(alloc, n)?;
        if objects.spare() > 0 {
            objects.put(id_of(key), object, n);
        }
    }
    Some(objects)
}

/// The objects of a round, with their ids. For `put` and `remove` the ids stand between the others.
fn round_objects(
    alloc: Global,
    call: Call,
    round: u64,
    entries: u64,
) -> Option<Vec<(ObjectId, Object)>> {
    let between = (call != Call::Get) as u64;
    let mut objects = Vec::new(alloc);
    for n in 0..CALLS {
        let at = scattered(round.wrapping_mul(CALLS).wrapping_add(n), entries);
        let id = id_of(at.wrapping_mul(2).wrapping_add(between));
        objects.push((id, object_of(alloc, n)?)).ok()?;
    }
    Some(objects)
}

fn get_objects(objects: &Objects, round: &[(ObjectId, Object)]) -> usize {
    round.iter().filter(|e| objects.get(e.0).is_some()).count()
}

fn put_objects(objects: &mut Objects, round: Vec<(ObjectId, Object)>) {
    for (id, object) in round {
        if objects.spare() > 0 {
            objects.put(id, object, 0);
        }
    }
}

fn remove_objects(objects: &mut Objects, round: &[(ObjectId, Object)]) {
    for (id, _) in round {
        objects.remove(*id);
    }
}

fn of_objects<R: AllocGlobal + Clock>(rt: &R, call: Call, entries: u64) -> Option<u64> {
    let alloc = rt.alloc();
    let mut objects = objects_of(alloc, entries)?;
    let mut spent: u64 = 0;
    for round in 0..ROUNDS {
        let keys = round_objects(alloc, call, round, entries)?;
        let again = round_objects(alloc, call, round, entries)?;
        objects.reserve(CALLS).ok()?;
        if call == Call::Remove {
            put_objects(&mut objects, keys);
            let start = Instant::now(rt).ok()?;
            remove_objects(&mut objects, again.as_slice());
            spent = spent.saturating_add(nanoseconds(rt, &start)?);
            continue;
        }
        let start = Instant::now(rt).ok()?;
        if call == Call::Put {
            put_objects(&mut objects, keys);
        } else if get_objects(&objects, keys.as_slice()) == 0 {
            return None;
        }
        spent = spent.saturating_add(nanoseconds(rt, &start)?);
        if call == Call::Put {
            remove_objects(&mut objects, again.as_slice());
        }
    }
    Some(spent)
}

/// Hands of `most` messages, where `waiting` wait each time.
fn of_hands<R: AllocGlobal + Clock>(rt: &R, waiting: u64, most: u32) -> Option<u64> {
    let alloc = rt.alloc();
    let mut outbox = Outbox::new(alloc);
    fill(alloc, &mut outbox, waiting)?;
    let mut spent: u64 = 0;
    for _ in 0..MESSAGES / (most as u64).max(1) {
        let start = Instant::now(rt).ok()?;
        let handed = outbox.hand(most).ok()?;
        spent = spent.saturating_add(nanoseconds(rt, &start)?);
        fill(alloc, &mut outbox, handed.as_slice().len() as u64)?;
    }
    Some(spent)
}

/// Puts so many messages in.
fn fill(alloc: Global, outbox: &mut Outbox, messages: u64) -> Option<()> {
    for n in 0..messages {
        let body = Blob::copy_of(alloc, &n.to_be_bytes()).ok()?;
        outbox.push_ready(Ready::new(alloc, Out::Message(body)).ok()?);
    }
    Some(())
}
