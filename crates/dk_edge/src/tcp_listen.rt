//! A listener of the system.
ghost use Rattle.std.specs.Prelude.{◌≡◌, ◌≤◌, false, IfOk};
ghost use Rattle.dk_types.specs.declared.limits.TheConstants.{NUMBERS_END};
ghost use Rattle.dk_edge.specs.Listening.{listening_at};

use crate::bells::Bells;
use crate::listener::{Binding, Listener};
use crate::std_streams::{StdSink, StdSource};
use crate::tcp_link::{Readiness, TcpLink};
use dk_types::limits::NUMBERS_END;
use dk_types::{Failed, FaultCount};
use std::alloc::Global;
use std::io::{self, ErrorKind};
use std::net::{Ipv4Addr, Net, OpenListener, OpenStream, TcpListener};
use std::sync::{Arc, Wait};
use std::thread;
use std::time::{Clock, Duration};

/// How many connections the system may refuse before one becomes a link, besides those that wait for room.
const MOST_REFUSED_COUNT: u64 = 600;

/// How long the next try waits, in ms.
const PAUSE_MS: u64 = 100;

/// What the system answers where all of its programs together may open no more files (`ENFILE`).
const SYSTEM_FILES_SPENT: i32 = 23;

/// Where the process may open no more (`EMFILE`).
const PROCESS_FILES_SPENT: i32 = 24;

/// Where it has no room for a connection (`ENOBUFS`).
const BUFFERS_SPENT: i32 = 105;

/// A source over one handle of a connection.
pub type TcpSource<S> = StdSource<S>;

/// A sink over another handle of it.
pub type TcpSink<S> = StdSink<S>;

/// Listens at a port of 127.0.0.1. It gives links for as long as they come, up to 2^62 of them. Each link has a bell. A
/// connection that ends before it is a link is let go of, and one for which there are no more files or no memory waits until
/// others have ended, for as long as that takes. It fails where for a minute the system has refused it otherwise, or before any
/// other was given.
#[derive(Drop)]
pub struct TcpListen<'a, R: Net + Wait + Clock> {
    rt: &'a R,
    alloc: Global,
    bells: Arc<Bells>,
    listener: Option<R::Listener>,
    binding: Binding,
    given: u64,
    ended: bool,
    faults: FaultCount,
    ghost few: { given ≤ NUMBERS_END },
}

impl<'a, R: Net + Wait + Clock> TcpListen<'a, R> {
    /// A listener of this runtime's system, which does not listen yet.
    pub fn new(rt: &'a R, alloc: Global, bells: Arc<Bells>) -> TcpListen<'a, R>
        ensures binding { result.binding ≡ Binding.NotCalled }
        ensures given { result.given ≡ 0 }
        ensures ended { result.ended ≡ false }
        ensures faults { result.faults.count ≡ 0 }
    {
        TcpListen {
            rt,
            alloc,
            bells,
            listener: None,
            binding: Binding::NotCalled,
            given: 0,
            ended: false,
            faults: FaultCount::new(),
        }
    }

    // The next connection.
    fn next(&self) -> io::Result<R::Stream> {
        match &self.listener {
            Some(listener) => Ok(listener.accept()?.0),
            None => Err(io::Error::from(io::ErrorKind::NotConnected)),
        }
    }

    // The next connection by two handles.
    fn next_pair(&self) -> io::Result<(R::Stream, R::Stream)> {
        let stream = self.next()?;
        let other = stream.try_clone()?;
        Ok((stream, other))
    }

    // The next connection, set not to block, nor to gather what is put.
    fn next_whole(&self) -> io::Result<TcpLink<R::Stream>>
        ensures fresh { IfOk result (λ link. (link.take_faults.count ≡ 0) × (link.put_faults.count ≡ 0)) }
    {
        let readiness = Readiness::new(self.rt, self.alloc)?;
        let stream = self.next()?;
        stream.set_nodelay(true)?;
        stream.set_nonblocking(true)?;
        let bells = Arc::try_clone(&self.bells)?;
        TcpLink::new(self.rt, readiness, bells, stream)
    }

    // The next connection that becomes a link. It is asked for as long as only room for it is wanting that others' ends give
    // back, and where the system refuses it otherwise some times.
    fn next_link(&self) -> io::Result<TcpLink<R::Stream>>
        ensures fresh { IfOk result (λ link. (link.take_faults.count ≡ 0) × (link.put_faults.count ≡ 0)) }
    {
        let mut refused: u64 = 0;
        for _ in self.rt.forever() {
            match self.next_whole() {
                Ok(link) => return Ok(link),
                Err(error) if self.given > 0 && wants_room(&error) => {}
                Err(error) if refused >= MOST_REFUSED_COUNT => return Err(error),
                Err(_) => refused = refused.saturating_add(1),
            }
            thread::sleep(self.rt, Duration::from_millis(PAUSE_MS));
        }
        unreachable!()
    }
}

// Whether the system gave nothing for want of files or of memory, of which there are more when others have ended.
fn wants_room(error: &io::Error) -> bool {
    match error.raw_os_error() {
        Some(SYSTEM_FILES_SPENT | PROCESS_FILES_SPENT | BUFFERS_SPENT) => true,
        _ => error.kind() == ErrorKind::OutOfMemory,
    }
}

impl<'a, R: Net + Wait + Clock> Listener for TcpListen<'a, R> {
    type In = TcpSource<R::Stream>;

    type Out = TcpSink<R::Stream>;

    type Whole = TcpLink<R::Stream>;

    ghost listening = { λ l. listening_at l.binding l.given l.ended };

    ghost counted = { λ l. l.faults.count };

    fn bind(&mut self, port: u16) -> Result<(), Failed> {
        match TcpListener::bind(self.rt, (Ipv4Addr::LOCALHOST, port)) {
            Ok(listener) => {
                self.listener = Some(listener);
                self.binding = Binding::Bound(port);
                Ok(())
            }
            Err(_) => {
                self.binding = Binding::Refused(port);
                self.faults.rise();
                Err(Failed)
            }
        }
    }

    fn accept(&mut self) -> Result<Option<(Self::In, Self::Out)>, Failed> {
        if self.given == NUMBERS_END {
            self.ended = true;
            return Ok(None);
        }
        let Ok((one, other)) = self.next_pair() else {
            self.faults.rise();
            return Err(Failed);
        };
        self.given += 1;
        Ok(Some((StdSource::new(one), StdSink::new(other))))
    }

    fn accept_link(&mut self) -> Result<Option<Self::Whole>, Failed> {
        if self.given == NUMBERS_END {
            self.ended = true;
            return Ok(None);
        }
        let Ok(link) = self.next_link() else {
            self.faults.rise();
            return Err(Failed);
        };
        self.given += 1;
        Ok(Some(link))
    }

    fn faults(&self) -> u64 {
        self.faults.count
    }
}
