//! A channel of so many members: what a send costs, and what a join and a leave read and write.

use dk_channels::{Channel, ChannelRecord, Delivery, join, leave, send};
use dk_refs::{Managed, SessionRecord};
use dk_txn::{ListView, Txn};
use dk_types::{
    Answer, Blob, ConnNo, Item, Job, Listed, Name, Object, ObjectId, Read, RunNo, Seen, Session,
};
use std::alloc::Global;
use std::time::{Clock, Instant};

/// So many messages are sent in a run, however many members share them.
const MESSAGES: u64 = 60_000;

/// So many runs are timed together.
const RUNS: u64 = 10;

/// What is done on the channel.
#[derive(Clone, Copy)]
pub enum Doing {
    /// Sends of 60,000 messages in each of ten runs. Their nanoseconds are told.
    Sends,
    /// One more joins. The reads of the run and the items that it wrote are told, counted together.
    Join,
    /// The first member leaves. The same is told.
    Leave,
}

/// The work of this word.
pub fn named(word: &str) -> Option<Doing> {
    match word {
        "channel-sends" => Some(Doing::Sends),
        "channel-join" => Some(Doing::Join),
        "channel-leave" => Some(Doing::Leave),
        _ => None,
    }
}

/// What is told, or nothing where memory or the clock is wanting.
pub fn on_channel<R: AllocGlobal + Clock>(rt: &R, doing: Doing, members: u32) -> Option<u64> {
    match doing {
        Doing::Sends => timed_sends(rt, members as u64),
        Doing::Join => items_of_join(rt.alloc(), members as u64),
        Doing::Leave => items_of_leave(rt.alloc(), members as u64),
    }
}

fn name_of(alloc: Global, text: &str) -> Option<Name> {
    Name::new(alloc, text.as_bytes()).ok()
}

fn channel(alloc: Global) -> Option<Channel> {
    Some(Channel {
        name: name_of(alloc, "hall")?,
    })
}

/// The session of a number. The members are those from 1 on.
fn player(alloc: Global, number: u64) -> Option<Session> {
    let text = format!(in alloc; "player.{number:08}").ok()?;
    Some(Session {
        name: name_of(alloc, text.as_str())?,
        conn: ConnNo(number),
    })
}

fn members(alloc: Global, count: u64) -> Option<Vec<Session>> {
    let mut members = Vec::new(alloc);
    for number in 0..count {
        members.push(player(alloc, number.saturating_add(1))?).ok()?;
    }
    Some(members)
}

/// The two reads of a platform name and the record that it leads to.
fn add_record(
    alloc: Global,
    reads: &mut Vec<(Item, Read)>,
    text: &str,
    id: ObjectId,
    record: Object,
) -> Option<()> {
    let name = name_of(alloc, text)?;
    for (item, answer) in [
        (Item::Bound(name), Answer::Named(id)),
        (Item::Object(id), Answer::Object(record)),
    ] {
        let seen = Seen::At(1);
        reads.push((item, Read { answer, seen })).ok()?;
    }
    Some(())
}

fn add_channel(alloc: Global, reads: &mut Vec<(Item, Read)>, count: u64) -> Option<()> {
    let record = ChannelRecord {
        listener: false,
        delivery: Delivery::Reliable,
        members: Listed::from_vec(members(alloc, count)?),
    };
    let object = Object {
        kind: ChannelRecord::KIND,
        bytes: record.encode(alloc).ok()?,
    };
    let id = ObjectId {
        run: RunNo(1),
        k: 0,
    };
    add_record(alloc, reads, "$c.hall", id, object)
}

/// The record of a session that is on the channel alone.
fn add_session(alloc: Global, reads: &mut Vec<(Item, Read)>, session: &Session) -> Option<()> {
    let channels = vec![in alloc; name_of(alloc, "hall")?].ok()?;
    let record = SessionRecord {
        conn: session.conn,
        channels: Listed::from_vec(channels),
    };
    let object = Object {
        kind: SessionRecord::KIND,
        bytes: record.encode(alloc).ok()?,
    };
    let id = ObjectId {
        run: RunNo(1),
        k: 1,
    };
    let key = format!(in alloc; "$s.{}", session.name.as_str()).ok()?;
    add_record(alloc, reads, key.as_str(), id, object)
}

/// A view of the channel, and of the record of the session of this number.
fn view_of(alloc: Global, count: u64, number: u64) -> Option<ListView> {
    let mut reads = Vec::new(alloc);
    add_channel(alloc, &mut reads, count)?;
    add_session(alloc, &mut reads, &player(alloc, number)?)?;
    Some(ListView::new(reads))
}

/// The nanoseconds of so many sends in a run of their own.
fn sends<R: AllocGlobal + Clock>(rt: &R, view: &mut ListView, count: u64) -> Option<u64> {
    let alloc = rt.alloc();
    let hall = channel(alloc)?;
    let body = Blob::copy_of(alloc, b"hello").ok()?;
    let mut txn = Txn::begin(alloc, view, RunNo(2), 0);
    let start = Instant::now(rt).ok()?;
    for _ in 0..count {
        send(alloc, &mut txn, &hall, None, &body).ok()?;
    }
    u64::try_from(start.elapsed(rt).ok()?.as_nanos()).ok()
}

fn timed_sends<R: AllocGlobal + Clock>(rt: &R, members: u64) -> Option<u64> {
    let mut view = view_of(rt.alloc(), members, 1)?;
    let mut told: u64 = 0;
    for _ in 0..RUNS {
        told = told.saturating_add(sends(rt, &mut view, MESSAGES / members.max(1))?);
    }
    Some(told)
}

/// How many items the run read and wrote, counted together.
fn items_of(txn: &mut Txn<'_, ListView>) -> Option<u64> {
    let finished = txn.end(&Job::Initialize, Ok(())).ok()?;
    let reads = finished.reads().len() as u64;
    Some(reads.saturating_add(finished.touched().len() as u64))
}

fn items_of_join(alloc: Global, members: u64) -> Option<u64> {
    let session = player(alloc, 0)?;
    let mut view = view_of(alloc, members, 0)?;
    let mut txn = Txn::begin(alloc, &mut view, RunNo(2), 0);
    join(alloc, &mut txn, &channel(alloc)?, &session).ok()?;
    items_of(&mut txn)
}

fn items_of_leave(alloc: Global, members: u64) -> Option<u64> {
    let session = player(alloc, 1)?;
    let mut view = view_of(alloc, members, 1)?;
    let mut txn = Txn::begin(alloc, &mut view, RunNo(2), 0);
    leave(alloc, &mut txn, &channel(alloc)?, &session).ok()?;
    items_of(&mut txn)
}
