//! The game server's program.
//!
//! `program::run` is a whole command over any streams and any home, and its contract says all that the program promises.
//! `main` gives it the words of the command line, the standard streams and the folders of the system, prints the line of a
//! fault to standard error, and exits with the status.
#![tactic(auto)]

mod asked;
mod ended;
mod play_command;
mod program;
mod report;
mod ringing;
mod serve;
mod serve_command;
mod stress;
#[cfg(test)]
mod tests;

use dk_disk::FolderHome;
use dk_edge::{Bells, StdSink, StdSource, SystemClock, TcpListen, ThreadSpawner};
use dk_status::Status;
use dk_streams::Announcing;
use dk_types::Words;
use program::run;
use ringing::RingingGate;
use std::alloc::{AllocError, AllocGlobal};
use std::fs::File;
use std::io::ErrorKind;
use std::process::ExitCode;
use std::rt::{Env, Files};
use std::sync::Arc;
use std::{env, io};

fn main(rt: HostRuntime) -> ExitCode {
    let _held = hold_stream_numbers(&rt);
    let system: Result<_, _> = rt.clone();
    let status = match (words(&rt), system, bells(&rt)) {
        (Ok(words), Ok(system), Ok((ours, theirs))) => {
            let mut input = StdSource::new(rt.reader());
            let mut out = StdSink::new(io::writer(&rt));
            let home = FolderHome::new(rt.alloc(), system);
            let mut net = Announcing::new(&rt, TcpListen::new(&rt, rt.alloc(), theirs));
            let clock = SystemClock::new(&rt);
            let mut spawner = ThreadSpawner::new(&rt);
            let gate = RingingGate::new(&rt, ours);
            let ran = run(
                &rt,
                rt.alloc(),
                &words,
                &mut input,
                &mut out,
                home,
                &mut net,
                &clock,
                &mut spawner,
                &gate,
            );
            net.report_served(ran.served.number());
            ran.status
        }
        (Err(status), _, _) => status,
        (_, Err(_), _) | (_, _, Err(_)) => Status::NoMemory,
    };
    if status != Status::Ok {
        let _ = eprintln!(rt; "{status}");
    }
    ExitCode::from(status.code())
}

/// Takes three numbers of open files, for as long as what is given here lives: the system gives the least that are free, which
/// are those of the standard streams that are closed. A file of the store that got one would be written over by what goes to
/// that stream. A folder can not be read or written as a file, so a closed stream stays one.
fn hold_stream_numbers<R: Files<File = File>>(rt: &R) -> [io::Result<File>; 3] {
    [
        File::open(rt, "/"),
        File::open(rt, "/"),
        File::open(rt, "/"),
    ]
}

/// The bells of a server, twice: for whoever rings, and for its links.
fn bells<R: AllocGlobal>(rt: &R) -> Result<(Arc<Bells>, Arc<Bells>), AllocError> {
    let bells = Arc::new(rt.alloc(), Bells::new(rt.alloc())?)?;
    let links = Arc::try_clone(&bells)?;
    Ok((bells, links))
}

/// The words after the program's name. Bytes that are no text are no words of any command.
fn words<R: Env + AllocGlobal>(rt: &R) -> Result<Words, Status> {
    let args = match env::args(rt) {
        Ok(args) => args,
        Err(error) if error.kind() == ErrorKind::OutOfMemory => return Err(Status::NoMemory),
        Err(_) => return Err(Status::Usage),
    };
    let mut words = Words::new(rt.alloc());
    for word in args.skip(1) {
        if words.push(word.as_str()).is_err() {
            return Err(Status::NoMemory);
        }
    }
    Ok(words)
}
