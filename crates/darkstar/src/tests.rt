//! The program by its top call, over streams and homes in memory: rows of commands, a server, workers that meet, and stops at each
//! call of the disk.
ghost use Rattle.std.specs.Prelude.{◌≡◌, IfOk};
ghost use Rattle.dk_disk.specs.Opening.{NotCalled};
ghost use Rattle.dk_edge.specs.Listening.{IsUncalled};

mod meeting;
mod rows;
mod serving;
mod stopping;

use crate::program::run;
use crate::serve::ServerGate;
use dk_disk::{MemoryHome, Torn};
use dk_edge::{
    Clock, FixedClock, Link, Listener, MemoryListener, MemorySink, MemorySource, Sink, Source,
    ThreadSpawner,
};
use dk_status::Status;
use dk_types::{NoMemory, Side, Words};
use dk_workers::OpenGate;
use rows::ROWS;
use std::alloc::{AllocError, AllocGlobal, Global};
use std::random::RandomSource;
use std::sync::Wait;
use std::test::Fail;
use std::thread::Threads;

fn words_of(alloc: Global, text: &str) -> Result<Words, NoMemory> {
    let mut words = Words::new(alloc);
    for word in text.split_ascii_whitespace() {
        words.push(word)?;
    }
    Ok(words)
}

/// What the two files of a home hold.
#[derive(Drop)]
struct Files {
    zero: Vec<u8>,
    one: Vec<u8>,
}

impl Files {
    // Those of a folder without a store.
    fn none(alloc: Global) -> Files {
        Files {
            zero: Vec::new(alloc),
            one: Vec::new(alloc),
        }
    }

    fn of(alloc: Global, home: &MemoryHome) -> Result<Files, AllocError> {
        Ok(Files {
            zero: home.contents(Side::Zero).to_vec(alloc)?,
            one: home.contents(Side::One).to_vec(alloc)?,
        })
    }

    // A home with these files and this plan.
    fn home(&self, alloc: Global, plan: DiskPlan) -> Result<MemoryHome, AllocError>
        ensures { IfOk result (λ home. home.opening ≡ NotCalled) }
    {
        let zero = self.zero.to_vec(alloc)?;
        let one = self.one.to_vec(alloc)?;
        let failing = [plan.failing].to_vec(alloc)?;
        let mut home = MemoryHome::new(alloc, zero, one, failing, false);
        if plan.is_watched {
            home.reserve(CALLS_COUNT, CALLS_BYTES)
                .map_err(|_| AllocError)?;
        }
        Ok(home)
    }
}

/// What a disk does: which of its calls fails, 0 for none, since calls have numbers from 1 on; and whether it is asked
/// afterwards what stops may have left.
#[derive(Clone, Copy)]
struct DiskPlan {
    failing: u64,
    is_watched: bool,
}

/// A disk on which nothing fails.
const SOUND: DiskPlan = DiskPlan {
    failing: 0,
    is_watched: false,
};

/// How many calls, and of how many bytes, a watched disk takes down.
const CALLS_COUNT: u64 = 256;

const CALLS_BYTES: u64 = 65_536;

/// What a stop may leave of writes that no sync has reached.
const TORN: [Torn; 4] = [Torn::Old, Torn::New, Torn::Zeros, Torn::Ones];

/// The files that a stop may leave right after a call. 0 is the moment before the first.
#[derive(Drop)]
struct Image {
    calls: u64,
    torn: Torn,
    files: Files,
}

// What stops may leave from the moment before the call of this number on, by kinds.
fn images_from(alloc: Global, home: &MemoryHome, call: u64) -> Result<Vec<Image>, AllocError> {
    let mut images = Vec::new(alloc);
    for torn in TORN {
        for calls in call.saturating_sub(1)..=home.calls() {
            let (zero, one) = home.crash_at(calls, torn).map_err(|_| AllocError)?;
            let files = Files { zero, one };
            images.push(Image { calls, torn, files })?;
        }
    }
    Ok(images)
}

/// How a command ended, how many sessions it served, what it wrote, what it left in the files and by how many calls, and, of a
/// watched disk, what stops may have left from the failing call on.
#[derive(Drop)]
struct Told {
    status: Status,
    served: u64,
    written: Vec<u8>,
    files: Files,
    calls: u64,
    images: Vec<Image>,
}

// The command of these words and this script, which comes in pieces of ten, on these files and a disk of this plan, over any
// listener, clock and gate. A test sees what is told alone: it has no home and no contract of the program to carry along.
fn command<
    T: Threads + Wait + RandomSource + AllocGlobal + Sync,
    E: Link + Send + Drop,
    I: Source + Send,
    O: Sink + Send,
    L: Listener<In = I, Out = O, Whole = E> + Send,
    C: Clock + Sync,
    G: ServerGate + Sync,
>(
    rt: &T,
    words: &str,
    script: &[u8],
    files: &Files,
    plan: DiskPlan,
    net: &mut L,
    clock: &C,
    gate: &G,
) -> Result<Told, AllocError>
    requires unbound { IsUncalled (L.listening net.old) }
{
    let alloc = rt.alloc();
    let words = words_of(alloc, words).map_err(|_| AllocError)?;
    let home = files.home(alloc, plan)?;
    let mut input = MemorySource::in_pieces(script.to_vec(alloc)?, Vec::new(alloc), 10);
    let mut out = MemorySink::new(alloc, Vec::new(alloc));
    let mut spawner = ThreadSpawner::new(rt);
    let ran = run(
        rt,
        alloc,
        &words,
        &mut input,
        &mut out,
        home,
        net,
        clock,
        &mut spawner,
        gate,
    );
    let images = if plan.is_watched {
        images_from(alloc, &ran.home, plan.failing)?
    } else {
        Vec::new(alloc)
    };
    Ok(Told {
        status: ran.status,
        served: ran.served.number(),
        written: out.contents().to_vec(alloc)?,
        files: Files::of(alloc, &ran.home)?,
        calls: ran.home.calls(),
        images,
    })
}

/// A row: whether its home is a new one, the words and the script of its command, its status, and what it writes.
#[derive(Clone, Copy, Debug)]
struct Row<'a> {
    is_new: bool,
    words: &'a str,
    script: &'a str,
    code: u8,
    text: &'a str,
}

impl<'a> Row<'a> {
    // The row of this text, if it is one.
    fn of(text: &'a str) -> Option<Row<'a>> {
        let (asked, answered) = text.split_once("\n= ")?;
        let (first, script) = asked.split_once('\n').unwrap_or((asked, ""));
        let (manner, words) = first.split_once(": ")?;
        let (code, text) = answered.split_once('\n')?;
        Some(Row {
            is_new: manner == "new",
            words,
            script,
            code: code.parse().ok()?,
            text,
        })
    }
}

// What a command comes to without a network, a clock that goes on, or a gate that holds.
fn played<T: Threads + Wait + RandomSource + AllocGlobal + Sync>(
    rt: &T,
    words: &str,
    script: &[u8],
    files: &Files,
    plan: DiskPlan,
) -> Result<Told, AllocError> {
    let alloc = rt.alloc();
    let mut net = MemoryListener::new(alloc, Vec::new(alloc), Vec::new(alloc));
    let clock = FixedClock::new(0);
    command(rt, words, script, files, plan, &mut net, &clock, &OpenGate)
}

// What the command of a row comes to on these files.
fn answered<T: Threads + Wait + RandomSource + AllocGlobal + Sync>(
    rt: &T,
    row: Row<'_>,
    files: &Files,
) -> Result<Told, AllocError> {
    let mut script = row.script.as_bytes().to_vec(rt.alloc())?;
    if !script.is_empty() {
        script.push(b'\n')?;
    }
    played(rt, row.words, script.as_slice(), files, SOUND)
}

#[test]
fn commands_are_answered_as_worked(rt: HostRuntime) -> Result<(), Fail> {
    let mut kept = Files::none(rt.alloc());
    for text in ROWS.split("--\n") {
        let row = Row::of(text).ok_or("a row")?;
        if row.is_new {
            kept = Files::none(rt.alloc());
        }
        let done = answered(&rt, row, &kept)?;
        assert_eq!(rt; done.status.code(), row.code, "{text}");
        assert_eq!(rt; done.written.as_slice(), row.text.as_bytes(), "{text}");
        kept = done.files;
    }
    Ok(())
}
