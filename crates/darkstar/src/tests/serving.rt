//! The command `serve` by the top call: over the loopback, and by a clock that goes on.
ghost use Rattle.std.specs.Prelude.{◌≡◌, false};
ghost use Rattle.dk_edge.specs.Listening.{listening_at};

use super::{Files, SOUND, command};
use crate::serve::ServerGate;
use dk_edge::{
    Bells, Binding, Clock, FixedClock, Listener, MemoryLink, MemorySink, MemorySource, TcpListen,
};
use dk_status::Status;
use dk_types::{Failed, RunNo};
use dk_workers::{Gate, OpenGate, Recipients};
use std::alloc::AllocGlobal;
use std::io::{self, ErrorKind, Read, Write};
use std::net::{Ipv4Addr, Net, TcpStream};
use std::sync::Arc;
use std::sync::atomic::{AtomicU64, Ordering};
use std::test::Fail;
use std::thread;
use std::time::{self, Duration};

/// A port that nothing else of the repository listens at.
const PORT: u16 = 47_813;

/// A login of alice, a look and a logout.
const ASKED: &[u8] = b"\0\0\0\x07\x01\x05alice\0\0\0\x05\x02look\0\0\0\x01\x04";

const ANSWERED: &[u8] =
    b"\0\0\0\x01\x81\0\0\0\x37\x83You are in a plain room.\nOn the floor: a shiny sword.\n";

/// How often a client that finds nobody tries again, with 10 ms between.
const TRIES_COUNT: u32 = 1_000;

/// How often a listener looks for a second commit.
const LOOKS_COUNT: u32 = 100_000_000;

// What a client is answered that asks once somebody listens, to the end.
fn answer<R: Net + time::Clock + AllocGlobal>(rt: &R) -> io::Result<Vec<u8>> {
    for _ in 0..TRIES_COUNT {
        if let Ok(mut stream) = TcpStream::connect(rt, (Ipv4Addr::LOCALHOST, PORT)) {
            let mut bytes = Vec::new(rt.alloc());
            stream.write_all(ASKED)?;
            stream.read_to_end(&mut bytes)?;
            return Ok(bytes);
        }
        thread::sleep(rt, Duration::from_millis(10));
    }
    Err(io::Error::from(ErrorKind::NotConnected))
}

#[test]
fn a_client_is_served_over_the_loopback(rt: HostRuntime) -> Result<(), Fail> {
    let alloc = rt.alloc();
    let none = Files::none(alloc);
    let mut net = TcpListen::new(&rt, alloc, Arc::new(alloc, Bells::new(alloc)?)?);
    let client = thread::spawn(&rt, move || answer(&rt))?;
    let words = "serve D --port 47813 --sessions 1";
    let clock = FixedClock::new(0);
    let done = command(&rt, words, b"", &none, SOUND, &mut net, &clock, &OpenGate)?;
    assert_eq!(rt; client.join(&rt)?.as_slice(), ANSWERED);
    assert_eq!(rt; done.status, Status::Ok);
    assert_eq!(rt; done.served, 1);
    Ok(())
}

/// A clock that gains 100 ms at each look.
#[derive(Drop)]
struct GainingClock {
    moment: AtomicU64,
}

impl Clock for GainingClock {
    fn now(&self) -> u64 {
        self.moment.fetch_add(100, Ordering::SeqCst)
    }

    fn pause(&self) {}
}

/// How many commits a gate heard of.
#[derive(Drop)]
struct CommitCount {
    commits: AtomicU64,
}

impl Gate for CommitCount {
    fn before_commit(&self, _worker: u32, _run: RunNo) {}

    fn after_commit(&self, _worker: u32, _run: RunNo, _recipients: &Recipients) {
        self.commits.fetch_add(1, Ordering::SeqCst);
    }
}

impl ServerGate for CommitCount {}

/// A listener to which nobody comes. It says so once a gate has heard of a second commit, or it has looked often.
#[derive(Drop)]
struct LateListener<'a> {
    gate: &'a CommitCount,
    binding: Binding,
    ended: bool,
}

impl<'a> LateListener<'a> {
    fn new(gate: &'a CommitCount) -> LateListener<'a>
        ensures binding { result.binding ≡ Binding.NotCalled }
        ensures ended { result.ended ≡ false }
    {
        LateListener {
            gate,
            binding: Binding::NotCalled,
            ended: false,
        }
    }
}

impl Listener for LateListener<'_> {
    type In = MemorySource;

    type Out = MemorySink;

    type Whole = MemoryLink;

    ghost listening = { λ l. listening_at l.binding 0 l.ended };

    ghost counted = { λ _. 0 };

    fn bind(&mut self, port: u16) -> Result<(), Failed> {
        self.binding = Binding::Bound(port);
        Ok(())
    }

    fn accept(&mut self) -> Result<Option<(MemorySource, MemorySink)>, Failed> {
        self.ended = true;
        Ok(None)
    }

    fn accept_link(&mut self) -> Result<Option<MemoryLink>, Failed> {
        for _ in 0..LOOKS_COUNT {
            if self.gate.commits.load(Ordering::SeqCst) > 1 {
                break;
            }
        }
        self.ended = true;
        Ok(None)
    }

    fn faults(&self) -> u64 {
        0
    }
}

#[test]
fn tasks_come_due_while_nobody_plays(rt: HostRuntime) -> Result<(), Fail> {
    let none = Files::none(rt.alloc());
    let gate = CommitCount {
        commits: AtomicU64::new(0),
    };
    let clock = GainingClock {
        moment: AtomicU64::new(0),
    };
    let mut net = LateListener::new(&gate);
    let words = "serve D --port 1 --game timer";
    let served = command(&rt, words, b"", &none, SOUND, &mut net, &clock, &gate)?;
    assert_eq!(rt; served.status, Status::Ok);
    assert_eq!(rt; served.served, 0);
    let mut net = LateListener::new(&gate);
    let words = "check D --game timer";
    let told = command(
        &rt,
        words,
        b"",
        &served.files,
        SOUND,
        &mut net,
        &clock,
        &gate,
    )?;
    assert_eq!(rt; told.status, Status::Ok);
    assert!(rt; told.written.starts_with(b"ok "));
    assert!(rt; !told.written.starts_with(b"ok 1 "));
    Ok(())
}
