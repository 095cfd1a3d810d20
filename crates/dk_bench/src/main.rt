//! Larger runs of the server's parts, for `bench/run` to time. Each subcommand is what one figure
//! times; the number behind it says how many times.
#![tactic(auto)]

ghost use Rattle.std.specs.Prelude.{◌≡◌};
ghost use Rattle.dk_disk.specs.Opening.{NotCalled};

mod beside;
mod channels;
mod cores;
mod desk;
mod disk;
mod filler;
mod frames;
mod hosts;
mod inspecting;
mod records;
mod sheet;
mod sheets;
mod stores;
mod tasks;
mod txn;

use channels::{Doing, on_channel};
use cores::{CoreWork, on_core};
use disk::{folder_appends, memory_calls};
use dk_disk::{FolderHome, Home};
use dk_turn_books::{empty_turns_anew, locked_adds, tally_in_threads};
use frames::Feeding;
use hosts::{HostWork, on_host};
use inspecting::inspect_objects;
use records::{RecordWork, on_records};
use std::env;
use std::fs::File;
use std::process::ExitCode;
use std::rt::{Env, Files};
use std::sync::Wait;
use std::thread::Threads;
use std::time::Clock;
use stores::Timed;
use txn::txn_calls;

/// What is run.
#[derive(Clone, Copy)]
enum Subcommand {
    /// So many locks and unlocks of a mutex, each with one atomic addition.
    LockedAdds,
    /// So many turns of a step that does nothing.
    EmptyTurns,
    /// So many turns of each of two threads at one tally. The tally is told.
    Tally,
    /// Calls of a store. Their nanoseconds are told.
    Store(Timed),
    /// Runs that each make so many objects and read as many. The objects written and the reads are told.
    TxnCalls,
    /// Calls on a channel of so many members.
    Channel(Doing),
    /// Jobs served on a core. Their nanoseconds are told.
    Core(CoreWork),
    /// So many appends with two syncs each on the folder `appends`. The file's length is told.
    FolderAppends,
    /// The same on a home in memory.
    MemoryCalls,
    /// The text of a world of so many objects. Its nanoseconds are told.
    InspectObjects,
    /// A client's stream of frames of so many bytes. Its nanoseconds are told.
    Frames(Feeding),
    /// Records of a store, or payloads of so many entries.
    Records(RecordWork),
    /// Work on a shared host. Its nanoseconds are told.
    Host(HostWork),
}

fn main(rt: HostRuntime) -> ExitCode {
    let Some(asked) = asked(&rt) else {
        let _ = rt.eprintln(
            "dk_bench: locked-adds|empty-turns|tally|STORE-CALL|txn-calls|channel-sends|channel-join|channel-leave|core-tasks|core-counters|core-sessions|folder-appends|memory-calls|inspect-objects|frames-in-pieces|frames-by-byte|store-appends|store-recover|store-decode|host-tasks|host-folder-tasks|host-commits|host-reads|host-held-reads|host-checkpoint-read|host-rewrites-by-one|host-rewrites-by-four TIMES, or several of these",
        );
        return ExitCode::from(2);
    };
    let mut told = 0;
    for (subcommand, times) in &asked {
        let system: Result<_, _> = rt.clone();
        let Ok(system) = system else {
            return ExitCode::from(1);
        };
        let folder = FolderHome::new(rt.alloc(), system);
        match run(&rt, folder, *subcommand, *times) {
            Some(number) => told = number,
            None => return ExitCode::from(1),
        }
    }
    // What one tells is told, and of several how many they are.
    let _ = match asked.len() {
        1 => println!(rt; "{told}"),
        several => println!(rt; "{several}"),
    };
    ExitCode::from(0)
}

/// The subcommands and their numbers, if the words are such.
fn asked<R: Env + AllocGlobal>(rt: &R) -> Option<Vec<(Subcommand, u32)>> {
    let mut asked = Vec::new(rt.alloc());
    let mut subcommand = None;
    for word in env::args(rt).ok()?.skip(1) {
        match subcommand {
            None => subcommand = Some(named(word.as_str())?),
            Some(known) => {
                asked.push((known, word.as_str().parse().ok()?)).ok()?;
                subcommand = None;
            }
        }
    }
    if asked.is_empty() || subcommand.is_some() {
        return None;
    }
    Some(asked)
}

fn named(word: &str) -> Option<Subcommand> {
    match word {
        "locked-adds" => Some(Subcommand::LockedAdds),
        "empty-turns" => Some(Subcommand::EmptyTurns),
        "tally" => Some(Subcommand::Tally),
        "txn-calls" => Some(Subcommand::TxnCalls),
        "folder-appends" => Some(Subcommand::FolderAppends),
        "memory-calls" => Some(Subcommand::MemoryCalls),
        "inspect-objects" => Some(Subcommand::InspectObjects),
        _ => stores::named(word)
            .map(Subcommand::Store)
            .or(channels::named(word).map(Subcommand::Channel))
            .or(cores::named(word).map(Subcommand::Core))
            .or(frames::named(word).map(Subcommand::Frames))
            .or(records::named(word).map(Subcommand::Records))
            .or(hosts::named(word).map(Subcommand::Host)),
    }
}

/// Runs a subcommand, which may work in the folder of a home that is not opened yet.
fn run<
    M: Home + Send + Drop,
    R: AllocGlobal + Threads + Wait + Sync + Clock + Files<File = File> + Clone + Drop,
>(rt: &R, folder: M, subcommand: Subcommand, times: u32) -> Option<u64>
    requires { M.opening folder ≡ NotCalled }
{
    match subcommand {
        Subcommand::LockedAdds => Some(locked_adds(rt, times as u64)),
        Subcommand::EmptyTurns => empty_turns_anew(rt, rt.alloc(), times as u64),
        Subcommand::Tally => tally_in_threads(rt, rt.alloc(), times as u64),
        Subcommand::Store(timed) => stores::time(rt, timed, times),
        Subcommand::TxnCalls => txn_calls(rt.alloc(), times),
        Subcommand::Channel(doing) => on_channel(rt, doing, times),
        Subcommand::Core(work) => on_core(rt, work, times),
        Subcommand::FolderAppends => folder_appends(rt.alloc(), rt.clone().ok()?, times),
        Subcommand::MemoryCalls => memory_calls(rt.alloc(), times),
        Subcommand::InspectObjects => inspect_objects(rt, times),
        Subcommand::Frames(feeding) => frames::decode(rt, feeding, times),
        Subcommand::Records(work) => on_records(rt, work, times),
        Subcommand::Host(work) => on_host(rt, folder, work, times),
    }
}
