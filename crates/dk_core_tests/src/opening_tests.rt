//! What worlds open with in which two sessions are recorded.

use dk_core::durable::StampedWorld;
use dk_core::opening::open_connections;
use dk_types::{Blob, ConnNo, Durable, Job, Listed, Name, Object, ObjectId, RunNo};
use std::alloc::Global;
use std::test::Fail;

fn text(alloc: Global, text: &str) -> Result<Name, Fail> {
    Ok(Name::new(alloc, text.as_bytes()).ok().ok_or("a name")?)
}

fn record_id(k: u32) -> ObjectId {
    ObjectId { run: RunNo(0), k }
}

/// The record of a session on a connection, on no channels.
fn record(alloc: Global, k: u32, conn: u8) -> Result<(ObjectId, Object), Fail> {
    let bytes = Blob::copy_of(alloc, &[0, 0, 0, 0, 0, 0, 0, conn, 0, 0, 0, 0])?;
    let object = Object {
        kind: 0xFF01,
        bytes,
    };
    Ok((record_id(k), object))
}

/// Two records, on these connections.
fn records(alloc: Global, connections: [u8; 2]) -> Result<Vec<(ObjectId, Object)>, Fail> {
    let mut records = Vec::new(alloc);
    let mut k = 0u32;
    for conn in connections {
        records.push(record(alloc, k, conn)?)?;
        k = k.saturating_add(1);
    }
    Ok(records)
}

/// The names of the two records.
fn record_names(alloc: Global) -> Result<Vec<(Name, ObjectId)>, Fail> {
    let mut names = Vec::new(alloc);
    for (name, k) in [("$s.alice", 0), ("$s.bob", 1)] {
        names.push((text(alloc, name)?, record_id(k)))?;
    }
    Ok(names)
}

fn opened(alloc: Global, durable: Durable) -> Result<StampedWorld, Fail> {
    Ok(StampedWorld::open(alloc, durable).ok().ok_or("a world")?)
}

/// A world whose largest committed run is 5, in which alice and bob are recorded on these connections.
fn alice_and_bob(alloc: Global, alice: u8, bob: u8) -> Result<StampedWorld, Fail> {
    let objects = records(alloc, [alice, bob])?;
    let names = record_names(alloc)?;
    let durable = Durable {
        commits: 6,
        last: Some(RunNo(5)),
        objects: Listed::from_vec(objects),
        names: Listed::from_vec(names),
        tasks: Listed::from_vec(Vec::new(alloc)),
    };
    opened(alloc, durable)
}

/// How many connections an empty world opens with.
fn opened_of_nothing(alloc: Global) -> Result<u64, Fail> {
    let world = StampedWorld::new(alloc);
    let connections = open_connections(alloc, &world)?;
    Ok(connections.len())
}

/// The job that waits where one connection is opened.
fn only_job(alloc: Global, world: &StampedWorld) -> Result<Job, Fail> {
    let connections = open_connections(alloc, world)?;
    if connections.len() != 1 {
        return Err(Fail::from("one connection"));
    }
    let Some(ready) = connections.least_ready() else {
        return Err(Fail::from("an input"));
    };
    Ok(connections.job(ready)?)
}

/// Whether of alice's connection and bob's this one is ended, of this name.
fn is_ended(alloc: Global, alice: u8, bob: u8, conn: u64, name: &str) -> Result<bool, Fail> {
    let end = Job::Disconnect {
        conn: ConnNo(conn),
        name: text(alloc, name)?,
        graceful: false,
    };
    let world = alice_and_bob(alloc, alice, bob)?;
    Ok(only_job(alloc, &world)? == end)
}

#[test]
fn recorded_sessions_are_ended(rt: HostRuntime) -> Result<(), Fail> {
    let alloc = rt.alloc();
    assert_eq!(rt; opened_of_nothing(alloc)?, 0);
    // Of two names with one number the lesser counts. A number beyond the largest run counts for none.
    for (alice, bob, conn, name) in [(3, 3, 3, "alice"), (6, 5, 5, "bob")] {
        assert!(rt; is_ended(alloc, alice, bob, conn, name)?, "{name}");
    }
    Ok(())
}
