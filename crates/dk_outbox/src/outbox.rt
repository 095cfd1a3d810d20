//! Waiting messages.
ghost use Rattle.std.specs.Prelude.{◌≡◌, ◌==◌, ◌+◌, ◌<◌, ◌≤◌, ◌++◌, [], length, take, drop, not, Ok, IfOk, OnOk, OnErr, if◌then◌else◌, vec_len, vec_capacity};
ghost use Rattle.dk_types.specs.declared.limits.TheConstants.{OUTS_MOST_COUNT};
ghost use Rattle.dk_outbox.specs.Outgoing.{is_full_outbox, with_last, IsSent};

use crate::ready::Ready;
use dk_types::limits::OUTS_MOST_COUNT;
use dk_types::{Listed, NoMemory, Out};
use std::alloc::Global;
use std::collections::LinkedList;
use std::marker::Model;

/// The messages that wait for one connection, at most 4,096.
#[derive(Drop)]
pub struct Outbox {
    outs: LinkedList<Out>,
    /// Made in advance, each with a message that stands for none.
    rooms: Vec<Ready>,
    alloc: Global,
}

impl Model for Outbox {
    ghost use Rattle.std.specs.Prelude.{◌≤◌, length, vec_len};
    ghost use Rattle.dk_types.specs.declared.limits.TheConstants.{OUTS_MOST_COUNT};
    ghost use Rattle.dk_outbox.specs.Outgoing.{Outgoing};

    ghost Value = { Outgoing };

    ghost view = { λ a. record { outs = a.outs; spare = vec_len a.rooms } };

    ghost invariant = { λ a. length a.outs ≤ OUTS_MOST_COUNT };
}

impl Outbox {
    /// No messages and no room. It takes no memory.
    pub fn new(alloc: Global) -> Outbox
        ensures empty { result.outs ≡ [] }
        ensures spare { result.spare ≡ 0 }
    {
        Outbox {
            outs: LinkedList::new(alloc),
            rooms: Vec::new(alloc),
            alloc,
        }
    }

    /// How many messages wait.
    pub fn len(&self) -> u64
        ensures len { result ≡ length self.now.outs }
        ensures most { length self.now.outs ≤ OUTS_MOST_COUNT }
    {
        self.outs.len() as u64
    }

    /// Whether no message waits.
    pub fn is_empty(&self) -> bool
        ensures { result ≡ (length self.now.outs == 0) }
    {
        self.outs.is_empty()
    }

    /// Whether as many messages wait as may.
    pub fn is_full(&self) -> bool
        ensures { result ≡ is_full_outbox self.now.outs }
    {
        self.outs.len() as u64 >= OUTS_MOST_COUNT
    }

    /// How many more messages fit without memory, beside those that bring their room.
    pub fn spare(&self) -> u64
        ensures { result ≡ self.now.spare }
    {
        self.rooms.len() as u64
    }

    /// Makes `spare` at least `more`. Where memory is refused nothing changes.
    pub fn reserve(&mut self, more: u64) -> Result<(), NoMemory>
        ensures outs { self.new.outs ≡ self.old.outs }
        ensures room { OnOk result (more ≤ self.new.spare) }
        ensures kept { self.old.spare ≤ self.new.spare }
        ensures had_room { more ≤ self.old.spare → (self.new ≡ self.old) × (result ≡ Ok tt) }
        ensures refused { OnErr result (self.new ≡ self.old) }
    {
        let most = more as usize;
        let had = self.rooms.len();
        if most <= had {
            return Ok(());
        }
        self.rooms.reserve(most - had)?;
        make_rooms(&mut self.rooms, self.alloc, most)
    }

    /// Puts a message last, in one of `spare`. Where 4,096 wait it is dropped, and the answer is false.
    pub fn push(&mut self, out: Out) -> bool
        requires room { length self.old.outs < OUTS_MOST_COUNT → 0 < self.old.spare }
        ensures answer { result ≡ not (is_full_outbox self.old.outs) }
        ensures outs { self.new.outs ≡ with_last self.old.outs out result }
        ensures spare { self.new.spare + (if result then 1 else 0) ≡ self.old.spare }
        ensures sent { IsSent out self.old.outs self.new.outs result }
    {
        if self.is_full() {
            return false;
        }
        let mut ready = self.rooms.take_last();
        ready.fill(out);
        self.push_ready(ready)
    }

    /// Puts a message last in the room that it brings. Where 4,096 wait it is dropped, and the answer is false.
    pub fn push_ready(&mut self, ready: Ready) -> bool
        ensures answer { result ≡ not (is_full_outbox self.old.outs) }
        ensures outs { self.new.outs ≡ with_last self.old.outs ready result }
        ensures spare { self.new.spare ≡ self.old.spare }
        ensures sent { IsSent ready self.old.outs self.new.outs result }
    {
        if self.is_full() {
            return false;
        }
        let mut cell = ready.into_cell();
        match self.outs.append(&mut cell) {
            Ok(()) => true,
            Err(_) => unreachable!(),
        }
    }

    /// Copies of the first messages, `most` of them or all. They stay.
    pub fn copy_first(&self, most: u32) -> Result<Listed<Out>, NoMemory>
        ensures { IfOk result (λ copies. copies ≡ take most self.now.outs) }
    {
        let mut copies = Vec::new(self.alloc);
        for out in self.outs.iter().take(most as usize) {
            copies.push(copy_of(out)?)?;
        }
        Ok(Listed::from_vec(copies))
    }

    /// Takes the first messages off, `most` of them or all. Its list alone takes memory; refused, it changes nothing.
    pub fn hand(&mut self, most: u32) -> Result<Listed<Out>, NoMemory>
        ensures handed { IfOk result (λ handed. handed ≡ take most self.old.outs) }
        ensures left { OnOk result (self.new.outs ≡ drop most self.old.outs) }
        ensures spare { self.new.spare ≡ self.old.spare }
        ensures refused { OnErr result (self.new ≡ self.old) }
    {
        let count = (most as usize).min(self.outs.len());
        let handed = take_front(&mut self.outs, self.alloc, count)?;
        Ok(Listed::from_vec(handed))
    }
}

/// A copy of a message.
fn copy_of(out: &Out) -> Result<Out, NoMemory>
    ensures { IfOk result (λ copy. copy ≡ out.now) }
{
    Ok(out.clone()?)
}

/// Adds rooms until there are `most`. Where memory is refused there are as many as before.
fn make_rooms(rooms: &mut Vec<Ready>, alloc: Global, most: usize) -> Result<(), NoMemory>
    requires less { vec_len rooms.old ≤ most }
    requires room { most ≤ vec_capacity rooms.old }
    ensures made { OnOk result (vec_len rooms.new ≡ most) }
    ensures refused { OnErr result (vec_len rooms.new ≡ vec_len rooms.old) }
{
    let had = rooms.len();
    'make: while rooms.len() < most {
        match Ready::new(alloc, Out::Close) {
            Ok(room) => rooms.push_reserved(room),
            Err(refused) => {
                rooms.truncate(had);
                return Err(refused);
            }
        }
    }
    Ok(())
}

/// Takes so many messages off the front.
fn take_front(outs: &mut LinkedList<Out>, alloc: Global, count: usize) -> Result<Vec<Out>, NoMemory>
    requires { count ≤ length outs.old }
    ensures taken { IfOk result (λ taken. taken.items ++ outs.new ≡ outs.old) }
    ensures count { IfOk result (λ taken. length taken.items ≡ count) }
    ensures refused { OnErr result (outs.new ≡ outs.old) }
{
    let mut taken = Vec::with_capacity(alloc, count)?;
    'take: while taken.len() < count {
        match outs.pop_front() {
            Some(out) => taken.push_reserved(out),
            None => unreachable!(),
        }
    }
    Ok(taken)
}
