//! What a section gives: what the view of the world answers, and the run's moment.

use crate::said;
use dk_refs::{ChannelRecord, Delivery, Managed, SessionRecord};
use dk_rows::{Subject, Words};
use dk_types::{Answer, Blob, ConnNo, Item, Listed, Name, Object, ObjectId, Read, Seen, Session};
use std::alloc::Global;

/// What a section gives.
#[derive(Drop)]
pub struct Given {
    pub reads: Vec<(Item, Read)>,
    /// The moment, in ms.
    pub at: u64,
    /// Whether the rows are whole jobs.
    pub of_jobs: bool,
    /// How often the view is to be asked, where that is told.
    pub asked: Option<u64>,
}

impl Given {
    /// An empty world at moment 100.
    pub fn new(alloc: Global) -> Given {
        Given {
            reads: Vec::new(alloc),
            at: 100,
            of_jobs: false,
            asked: None,
        }
    }

    fn add(&mut self, item: Item, answer: Answer) -> Option<()> {
        let seen = Seen::At(1);
        self.reads.push((item, Read { answer, seen })).ok()
    }

    fn add_object(&mut self, id: ObjectId, kind: u16, bytes: Blob) -> Option<()> {
        self.add(Item::Object(id), Answer::Object(Object { kind, bytes }))
    }

    /// `object 2.0 3 3`: the id, the kind and how many bytes.
    fn object(&mut self, alloc: Global, call: &mut Words<'_>) -> Option<()> {
        let id = said::id(call)?;
        let kind = u16::try_from(call.number()?).ok()?;
        self.add_object(id, kind, said::bytes(alloc, call)?)
    }

    /// `name hall 2.0`
    fn name(&mut self, alloc: Global, call: &mut Words<'_>) -> Option<()> {
        let name = said::name(alloc, call)?;
        self.add(Item::Bound(name), Answer::Named(said::id(call)?))
    }

    /// `next - a`: the next name after none is `a`.
    fn next(&mut self, alloc: Global, call: &mut Words<'_>) -> Option<()> {
        let item = Item::NextAfter(said::name_after(alloc, call)?);
        let next = said::name(alloc, call)?;
        let seen = Seen::Next(Some(next.clone().ok()?));
        let answer = Answer::Next(Some(next));
        self.reads.push((item, Read { answer, seen })).ok()
    }

    fn task(&mut self, call: &mut Words<'_>) -> Option<()> {
        self.add(Item::Task(said::key(call)?), Answer::Task)
    }

    /// `session 2.1 1 hall`: a session's record with its number and its channels.
    fn session(&mut self, alloc: Global, call: &mut Words<'_>) -> Option<()> {
        let id = said::id(call)?;
        let conn = ConnNo(call.number()?);
        let channels = Listed::from_vec(channels(alloc, call)?);
        let record = SessionRecord { conn, channels };
        self.add_object(id, 0xFF01, record.encode(alloc).ok()?)
    }

    /// `channel 2.4 heard alice 1 bob 2`: a channel's record with its members, to which a game listens.
    fn channel(&mut self, alloc: Global, call: &mut Words<'_>) -> Option<()> {
        let id = said::id(call)?;
        let listener = call.word()? == "heard";
        let members = Listed::from_vec(members(alloc, call)?);
        let record = ChannelRecord {
            listener,
            delivery: Delivery::Reliable,
            members,
        };
        self.add_object(id, 0xFF02, record.encode(alloc).ok()?)
    }

    fn give(&mut self, alloc: Global, call: &mut Words<'_>) -> Option<()> {
        match call.word()? {
            "object" => self.object(alloc, call),
            "name" => self.name(alloc, call),
            "next" => self.next(alloc, call),
            "task" => self.task(call),
            "session" => self.session(alloc, call),
            "channel" => self.channel(alloc, call),
            "at" => {
                self.at = call.number()?;
                Some(())
            }
            "asked" => {
                self.asked = Some(call.number()?);
                Some(())
            }
            "jobs" => {
                self.of_jobs = true;
                Some(())
            }
            _ => None,
        }
    }
}

impl Subject for Given {
    fn answer(&mut self, alloc: Global, call: &mut Words<'_>) -> Option<String> {
        let _given = call.word()?;
        self.give(alloc, call)?;
        Some(String::new(alloc))
    }
}

/// Names, of which `255 c*255` stands for so many.
fn channels(alloc: Global, call: &mut Words<'_>) -> Option<Vec<Name>> {
    let mut names = Vec::new(alloc);
    for _ in 0..u64::MAX {
        if call.rest().is_empty() {
            break;
        }
        let times = call.number()?;
        let name = said::name(alloc, call)?;
        for _ in 0..times {
            names.push(name.clone().ok()?).ok()?;
        }
    }
    Some(names)
}

/// Sessions, of which `248 m*255 0` stands for so many with the same number.
fn members(alloc: Global, call: &mut Words<'_>) -> Option<Vec<Session>> {
    let mut members = Vec::new(alloc);
    for _ in 0..u64::MAX {
        if call.rest().is_empty() {
            break;
        }
        let times = call.number()?;
        let member = said::session(alloc, call)?;
        for _ in 0..times {
            members.push(member.clone().ok()?).ok()?;
        }
    }
    Some(members)
}
