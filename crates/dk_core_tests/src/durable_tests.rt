//! Commits on a stamped world, one after another: what is seen of four items after each.

use dk_core::Conflict;
use dk_core::durable::StampedWorld;
use dk_txn::{Finished, Txn, View};
use dk_types::{Blob, Durable, Item, Job, Name, NoMemory, ObjectId, Read, RunNo, Seen, TaskKey};
use std::alloc::Global;
use std::process::Abort;
use std::test::Fail;

/// What a run does.
#[derive(Clone, Copy, Debug)]
enum Deed {
    /// It makes an object and binds the name to it.
    Builds,
    /// It schedules a task for 10 ms and every 10 ms from then on.
    Schedules,
    /// It takes up that task, which is moved to 20 ms.
    Recurs,
    /// It unbinds the name.
    Leaves,
}

/// A run, and what is seen after its commit of the object, the name, the next name and the task.
#[derive(Clone, Copy)]
struct Row {
    run: u64,
    deed: Deed,
    object: Option<u64>,
    name: Option<u64>,
    task: Option<u64>,
}

const BUILT: ObjectId = ObjectId {
    run: RunNo(0),
    k: 0,
};

/// An object that no run makes.
const NEVER: ObjectId = ObjectId {
    run: RunNo(7),
    k: 0,
};

const SCHEDULED: TaskKey = TaskKey {
    run: RunNo(1),
    k: 0,
};

fn hall(alloc: Global) -> Result<Name, Fail> {
    Ok(Name::new(alloc, b"hall").ok().ok_or("a name")?)
}

fn empty(alloc: Global) -> Blob {
    Blob::from_vec(Vec::new(alloc))
}

fn act<V: View>(alloc: Global, txn: &mut Txn<'_, V>, deed: Deed, name: &Name) -> Option<()> {
    match deed {
        Deed::Builds => {
            let id = txn.create(1, empty(alloc)).ok()?;
            txn.bind(name, id).ok()
        }
        Deed::Schedules => {
            txn.schedule_periodic(3, empty(alloc), 10, 10).ok()?;
            Some(())
        }
        Deed::Recurs => {
            txn.own_task(SCHEDULED, 10, 10).ok()?;
            Some(())
        }
        Deed::Leaves => txn.unbind(name).ok(),
    }
}

fn run_over<V: View>(
    alloc: Global,
    view: &mut V,
    row: &Row,
    name: &Name,
) -> Result<Finished, Fail> {
    let mut txn = Txn::begin(alloc, view, RunNo(row.run), 0);
    act(alloc, &mut txn, row.deed, name).ok_or("a call")?;
    Ok(txn.end(&Job::Initialize, Ok(()))?)
}

fn run(alloc: Global, world: &StampedWorld, row: &Row, name: &Name) -> Result<Finished, Fail> {
    let mut look = world.look();
    run_over(alloc, &mut look, row, name)
}

fn commit_run(
    rt: &impl Abort,
    world: &mut StampedWorld,
    finished: Finished,
    run: u64,
) -> Result<u64, Fail> {
    assert!(rt; world.commits() < 1000);
    match world.reserve_for(&finished) {
        Ok(()) => Ok(world.commit(finished, RunNo(run))),
        Err(_) => Err(Fail::from("room")),
    }
}

/// A run of the row, committed.
fn commit(
    rt: &impl Abort,
    alloc: Global,
    world: &mut StampedWorld,
    row: &Row,
    name: &Name,
) -> Result<u64, Fail> {
    let finished = run(alloc, world, row, name)?;
    commit_run(rt, world, finished, row.run)
}

fn at(stamp: Option<u64>) -> Seen {
    match stamp {
        None => Seen::Absent,
        Some(stamp) => Seen::At(stamp),
    }
}

fn seen(world: &StampedWorld, item: &Item) -> Result<Seen, Fail> {
    Ok(world.read(item).ok().ok_or("a read")?.seen)
}

fn next_of(row: &Row, name: &Name) -> Result<Seen, Fail> {
    match row.name {
        None => Ok(Seen::Next(None)),
        Some(_) => Ok(Seen::Next(Some(name.clone()?))),
    }
}

/// The item in this place among the four, and what the row says of it.
fn row_item(row: &Row, name: &Name, place: u32) -> Result<(Item, Seen), Fail> {
    match place {
        0 => Ok((Item::Object(BUILT), at(row.object))),
        1 => Ok((Item::Bound(name.clone()?), at(row.name))),
        2 => Ok((Item::NextAfter(None), next_of(row, name)?)),
        _ => Ok((Item::Task(SCHEDULED), at(row.task))),
    }
}

/// What is seen of the four items is what the row says.
fn assert_seen(rt: &impl Abort, world: &StampedWorld, row: &Row, name: &Name) -> Result<(), Fail> {
    for place in 0..4 {
        let (item, wanted) = row_item(row, name, place)?;
        let holds = seen(world, &item)? == wanted;
        assert!(rt; holds, "{item:?}");
    }
    Ok(())
}

const ROWS: [Row; 4] = [
    Row {
        run: 0,
        deed: Deed::Builds,
        object: Some(1),
        name: Some(1),
        task: None,
    },
    Row {
        run: 1,
        deed: Deed::Schedules,
        object: Some(1),
        name: Some(1),
        task: Some(2),
    },
    // A task that is due again keeps its stamp.
    Row {
        run: 4,
        deed: Deed::Recurs,
        object: Some(1),
        name: Some(1),
        task: Some(2),
    },
    Row {
        run: 3,
        deed: Deed::Leaves,
        object: Some(1),
        name: None,
        task: Some(2),
    },
];

/// The row's run is committed as this commit, and what is seen then is what the row says.
fn assert_committed(
    rt: &impl Abort,
    alloc: Global,
    world: &mut StampedWorld,
    row: &Row,
    seq: u64,
) -> Result<(), Fail> {
    let name = hall(alloc)?;
    let told = commit(rt, alloc, world, row, &name)?;
    assert_eq!(rt; told, seq);
    assert_seen(rt, world, row, &name)
}

/// A world after all rows.
fn committed(rt: &impl Abort, alloc: Global) -> Result<StampedWorld, Fail> {
    let mut world = StampedWorld::new(alloc);
    let mut seq = 0u64;
    for row in ROWS.as_slice() {
        seq = seq.saturating_add(1);
        assert_committed(rt, alloc, &mut world, row, seq)?;
    }
    Ok(world)
}

/// Its greatest run, and which tasks are due at 19 and at 20 ms.
fn last_and_due(world: &StampedWorld) -> (Option<RunNo>, [Option<TaskKey>; 2]) {
    (world.last(), [world.least_due(19), world.least_due(20)])
}

#[test]
fn each_commit_stamps_what_it_wrote(rt: HostRuntime) -> Result<(), Fail> {
    let world = committed(&rt, rt.alloc())?;
    let (last, [early, due]) = last_and_due(&world);
    assert_eq!(rt; last, Some(RunNo(4)));
    assert!(rt; early.is_none());
    assert_eq!(rt; due, Some(SCHEDULED));
    Ok(())
}

/// An item, and what is read of it.
fn read_pair(world: &StampedWorld, item: Item) -> Result<(Item, Read), Fail> {
    let read = world.read(&item).ok().ok_or("a read")?;
    Ok((item, read))
}

/// The reads of an object and of the name, as the empty world answers them.
fn first_reads(
    alloc: Global,
    world: &StampedWorld,
    name: &Name,
) -> Result<Vec<(Item, Read)>, Fail> {
    let mut reads = Vec::new(alloc);
    reads.push(read_pair(world, Item::Object(NEVER))?)?;
    reads.push(read_pair(world, Item::Bound(name.clone()?))?)?;
    Ok(reads)
}

/// Whether the first of the reads that no longer stands is the one of the name, which is bound by the first commit.
fn is_told_of_name(world: &StampedWorld, reads: &[(Item, Read)], name: Name) -> bool {
    let changed = Conflict {
        item: Item::Bound(name),
        found: Seen::Absent,
        now: Seen::At(1),
    };
    world.first_conflict(reads) == Ok(Some(changed))
}

fn is_of_now(world: &StampedWorld, reads: &[(Item, Read)]) -> bool {
    world.first_conflict(reads) == Ok(None)
}

#[test]
fn a_stale_read_is_told(rt: HostRuntime) -> Result<(), Fail> {
    let alloc = rt.alloc();
    let name = hall(alloc)?;
    let mut world = StampedWorld::new(alloc);
    let reads = first_reads(alloc, &world, &name)?;
    assert!(rt; is_of_now(&world, &reads));
    commit(&rt, alloc, &mut world, &ROWS[0], &name)?;
    assert!(rt; is_told_of_name(&world, &reads, name));
    Ok(())
}

/// A copy of the world, put in order.
fn listed(alloc: Global, world: &StampedWorld) -> Result<Durable, NoMemory> {
    world.copy(alloc)?.in_order()
}

/// A world that is opened with what another lists.
fn opened_again(alloc: Global, world: &StampedWorld) -> Result<StampedWorld, Fail> {
    let list = listed(alloc, world).ok().ok_or("a list")?;
    Ok(StampedWorld::open(alloc, list).ok().ok_or("a world")?)
}

fn is_same(alloc: Global, one: &StampedWorld, other: &StampedWorld) -> bool {
    listed(alloc, one) == listed(alloc, other)
}

/// A world after the first two rows.
fn built(rt: &impl Abort, alloc: Global, name: &Name) -> Result<StampedWorld, Fail> {
    let mut world = StampedWorld::new(alloc);
    commit(rt, alloc, &mut world, &ROWS[0], name)?;
    commit(rt, alloc, &mut world, &ROWS[1], name)?;
    Ok(world)
}

#[test]
fn a_list_is_opened_and_copied(rt: HostRuntime) -> Result<(), Fail> {
    let alloc = rt.alloc();
    let name = hall(alloc)?;
    let world = built(&rt, alloc, &name)?;
    let again = opened_again(alloc, &world)?;
    assert!(rt; is_same(alloc, &again, &world));
    assert!(rt; seen(&again, &Item::Bound(name))? == Seen::At(2));
    Ok(())
}
