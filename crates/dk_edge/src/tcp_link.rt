//! A link over a stream of the system that does not block.
ghost use Rattle.std.specs.Prelude.{◌≡◌, None, IfOk};

use crate::bells::{Bells, HungBell};
use crate::link::Link;
use dk_types::{ConnNo, Failed, FaultCount};
use futures::task::{Context, Poll};
use mio::unix::SourceFd;
use mio::{Events, Interest, Token, Waker};
use std::alloc::Global;
use std::io::{self, ErrorKind, Read, Write};
use std::net::{Net, OpenStream};
use std::os::fd::AsRawFd;
use std::sync::{Arc, Wait};
use std::time::Duration;

/// How many polls in a row may find nothing before a link is waited for whose thread alone is awake.
const QUICK_POLLS_COUNT: u64 = 64;

/// How many may where others are awake. Behind a ring the first poll finds what was handed, and the next puts it.
const LEAST_QUICK_POLLS_COUNT: u64 = 2;

/// How long a stream or a bell is waited for at most, in ms.
const WAIT_MS: u64 = 1_000;

/// How long where nothing more is taken, in ms: the run of a connection's end rings no bell.
const ENDED_WAIT_MS: u64 = 10;

/// How many waits for a stream may find nothing, in all, before its first login: about ten seconds.
const SILENT_WAITS_COUNT: u64 = 10;

/// The tokens of the stream and of the bell.
const STREAM: Token = Token(0);

const BELL: Token = Token(1);

/// How many events one wait takes.
const EVENTS_COUNT: usize = 2;

/// What the system says of a stream and of a bell. It is made before its stream comes, so that a connection for which the
/// process may open no more files is left waiting.
#[derive(Drop)]
pub(crate) struct Readiness {
    ready: mio::Poll,
    events: Events,
    waker: Waker,
}

impl Readiness {
    pub(crate) fn new<R: Net + Wait>(rt: &R, alloc: Global) -> io::Result<Readiness> {
        let ready = mio::Poll::new(rt)?;
        let events = Events::with_capacity(alloc, EVENTS_COUNT)?;
        let waker = Waker::new(ready.registry(), BELL)?;
        Ok(Readiness {
            ready,
            events,
            waker,
        })
    }
}

/// A link over a stream of the system that was set not to block. It tells nothing of its bytes. A poll that finds the stream
/// not ready asks for another poll; where some in a row found nothing to take and put nothing, a poll first waits for the
/// stream or the link's bell, so that an idle link costs almost nothing and is woken at once. A stream that is silent for some
/// ten seconds before it belongs to a connection has ended for who takes from it, so that it keeps no other out.
#[derive(Drop)]
pub struct TcpLink<S: Read + Write + OpenStream + AsRawFd + Drop> {
    stream: S,
    ready: mio::Poll,
    events: Events,
    bell: HungBell,
    // How many polls in a row found nothing to take and put nothing.
    idle: u64,
    // Whether the last take left nothing behind, and no wait has told of more since.
    drained: bool,
    // Whether the bell is rung, and the next poll that finds nothing sleeps.
    awaits: bool,
    // How many waits for the stream found nothing.
    silent: u64,
    // Whether it belongs to a connection.
    is_named: bool,
    take_faults: FaultCount,
    put_faults: FaultCount,
}

impl<S: Read + Write + OpenStream + AsRawFd + Drop> TcpLink<S> {
    /// A link over this connection, which was set not to block, with one of these bells.
    pub(crate) fn new<R: Net + Wait>(
        rt: &R,
        readiness: Readiness,
        bells: Arc<Bells>,
        stream: S,
    ) -> io::Result<TcpLink<S>>
        ensures take { IfOk result (λ link. link.take_faults.count ≡ 0) }
        ensures put { IfOk result (λ link. link.put_faults.count ≡ 0) }
    {
        let Readiness {
            ready,
            events,
            waker,
        } = readiness;
        let both = Interest::READABLE | Interest::WRITABLE;
        ready
            .registry()
            .register(&mut SourceFd(&stream.as_raw_fd()), STREAM, both)?;
        let Some(bell) = HungBell::hang(rt, bells, waker) else {
            return Err(io::Error::from(ErrorKind::OutOfMemory));
        };
        Ok(TcpLink {
            stream,
            ready,
            events,
            bell,
            idle: 0,
            drained: false,
            awaits: false,
            silent: 0,
            is_named: false,
            take_faults: FaultCount::new(),
            put_faults: FaultCount::new(),
        })
    }

    // Behind how many polls that found nothing the stream is waited for: few, but where no other thread of a link is awake and
    // wants the processor.
    fn quick_polls(&self) -> u64 {
        if self.bell.awake_count() > 1 {
            LEAST_QUICK_POLLS_COUNT
        } else {
            QUICK_POLLS_COUNT
        }
    }

    // Behind some polls that found nothing, waits a little for the stream or the bell. From the last of these polls on the
    // bell is rung, so that what came before it is found by the next.
    fn rest_for(&mut self, most_ms: u64)
        ensures take { self.new.take_faults.count ≡ self.old.take_faults.count }
        ensures put { self.new.put_faults.count ≡ self.old.put_faults.count }
    {
        self.idle = self.idle.saturating_add(1);
        if self.awaits {
            self.sleep(most_ms);
        } else if self.idle >= self.quick_polls() {
            self.awaits = true;
            self.bell.await_ring();
        }
    }

    // Waits a little for the stream or the bell.
    fn sleep(&mut self, most_ms: u64)
        ensures take { self.new.take_faults.count ≡ self.old.take_faults.count }
        ensures put { self.new.put_faults.count ≡ self.old.put_faults.count }
    {
        let most = Some(Duration::from_millis(most_ms));
        // Where the system refuses to wait, the next poll comes at once.
        if self.ready.poll(&mut self.events, most).is_err() {
            self.drained = false;
            return;
        }
        // Who was woken has something to do, which is not waited for.
        if self.events.is_empty() {
            self.silent = self.silent.saturating_add(1);
            self.drained = false;
            return;
        }
        if self.events.iter().any(|event| event.token() == STREAM) {
            self.drained = false;
        }
        self.stir();
    }

    // It was woken, took or put something, and is polled some times before it sleeps again.
    fn stir(&mut self)
        ensures take { self.new.take_faults.count ≡ self.old.take_faults.count }
        ensures put { self.new.put_faults.count ≡ self.old.put_faults.count }
    {
        self.idle = 0;
        if self.awaits {
            self.awaits = false;
            self.bell.has_woken();
        }
    }
}

impl<S: Read + Write + OpenStream + AsRawFd + Drop> Link for TcpLink<S> {
    ghost remaining = { λ _. None };

    ghost contents = { λ _. None };

    ghost take_counted = { λ l. l.take_faults.count };

    ghost put_counted = { λ l. l.put_faults.count };

    fn poll_take(
        &mut self,
        context: &mut Context<'_>,
        into: &mut [u8],
    ) -> Poll<Result<usize, Failed>> {
        // Who is still silent and has not logged in is waited for no longer.
        if !self.is_named && self.silent >= SILENT_WAITS_COUNT {
            return Poll::Ready(Ok(0));
        }
        // Among many that are awake a stream that was drained is not asked again before it tells of more.
        if self.drained && self.quick_polls() == LEAST_QUICK_POLLS_COUNT {
            self.rest_for(WAIT_MS);
            if self.drained {
                return context.yield_now();
            }
        }
        match self.stream.read(into) {
            Ok(count) => {
                self.stir();
                self.drained = count < into.len();
                Poll::Ready(Ok(count))
            }
            Err(error) if is_passing(error.kind()) => {
                self.drained = error.kind() == ErrorKind::WouldBlock;
                self.rest_for(WAIT_MS);
                context.yield_now()
            }
            Err(_) => {
                self.take_faults.rise();
                Poll::Ready(Err(Failed))
            }
        }
    }

    fn poll_put(&mut self, context: &mut Context<'_>, bytes: &[u8]) -> Poll<Result<usize, Failed>> {
        if bytes.is_empty() {
            return Poll::Ready(Ok(0));
        }
        match self.stream.write(bytes) {
            Ok(count) if count > 0 => {
                self.stir();
                Poll::Ready(Ok(count))
            }
            Err(error) if is_passing(error.kind()) => context.yield_now(),
            _ => {
                self.put_faults.rise();
                Poll::Ready(Err(Failed))
            }
        }
    }

    fn belong_to(&mut self, conn: ConnNo) {
        self.is_named = true;
        self.bell.name(conn);
    }

    fn rest(&mut self) {
        self.rest_for(ENDED_WAIT_MS);
    }

    fn take_faults(&self) -> u64 {
        self.take_faults.count
    }

    fn put_faults(&self) -> u64 {
        self.put_faults.count
    }
}

// Whether the stream may do what was asked a little later.
fn is_passing(kind: ErrorKind) -> bool {
    kind == ErrorKind::WouldBlock || kind == ErrorKind::Interrupted
}
