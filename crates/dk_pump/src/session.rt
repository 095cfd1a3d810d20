//! A session that is polled, step by step: it takes and posts, and it hands and puts.
ghost use Rattle.std.specs.Prelude.{◌≡◌, ◌<◌, [], map, length, None, Some, true, false, if◌then◌else◌, All, IsSome};
ghost use Rattle.futures.specs.Poll.{IfReady, OnPending};
ghost use Rattle.futures.specs.Task.{IsArmed, Keeps};
ghost use Rattle.dk_types.specs.Faults.{HasRisen};
ghost use Rattle.dk_model.specs.Lawful.{HasShortBody};
ghost use Rattle.dk_frame.specs.Meanings.{frame_of};
ghost use Rattle.dk_pump.specs.Sessions.{EndsReading, GoesOn, IsMidst, with_handed};
ghost use Rattle.dk_pump.specs.Waiting.{FindsNothing, IsLater, IsStill, MayWait, WaitsToRead, WaitsToWrite};

use crate::closing::disconnect;
use crate::course::Course;
use crate::ends::{SessionEnd, WriteEnd};
use crate::limits::HAND_MOST_COUNT;
use crate::outgoing::Outgoing;
use crate::polling::poll_frames;
use crate::posting::{Progress, post_frames};
use crate::putting::PutRefused;
use crate::reading::close;
use crate::watched::Watched;
use dk_core::Handed;
use dk_disk::Home;
use dk_edge::Link;
use dk_frame::ClientFrame;
use dk_host::{Host, Hosting, WorldBook};
use dk_turn::{Naming, Pass};
use dk_types::ConnNo;
use futures::task::{Context, Poll};
use std::alloc::Global;
use std::sync::Wait;

/// A session in its midst.
#[derive(Drop)]
pub(crate) struct Session<W: Hosting, J: Naming, K: Link + Drop> {
    pub(crate) pass: Pass<WorldBook<W>, J>,
    pub(crate) link: Watched<K>,
    pub(crate) course: Course,
    pub(crate) alloc: Global,
    // Whether it took in something of the client since its thread last helped. No contract speaks of it.
    pub(crate) entered: bool,
}

impl<W: Hosting, J: Naming, K: Link + Drop> Session<W, J, K> {
    /// Goes on with what is ready. Answers how the session ended; pending where neither direction can go on.
    pub(crate) fn go_on<M: Home, R: Wait>(
        &mut self,
        rt: &R,
        host: &Host<W, J, M>,
        context: &mut Context<'_>,
    ) -> Poll<(SessionEnd, WriteEnd)>
        requires midst { IsMidst W.opened W.keeps J.name.passes self.old.pass self.old.link self.old.course [] }
        ensures goes { GoesOn W.opened W.keeps J.name.passes self.old.pass self.old.link self.old.course [] self.new.pass self.new.link self.new.course [] }
        ensures ended { IfReady result (λ ends. (self.new.course.end ≡ Some ends.0) × (self.new.course.write ≡ Some ends.1)) }
        ensures waits { OnPending result (MayWait W.opened self.old.pass self.old.link self.new.pass self.new.link self.new.course) }
        ensures armed { OnPending result (IsArmed context.new) }
        ensures kept { Keeps context.old context.new }
    {
        for _ in rt.forever() {
            if let Some(write) = self.course.write {
                let Some(end) = self.course.end else {
                    unreachable!()
                };
                return Poll::Ready((end, write));
            }
            let wrote = self.write_on(rt, host, context);
            let read = self.read_on(rt, host, context);
            if wrote.is_pending() && read.is_pending() {
                return Poll::Pending;
            }
        }
        unreachable!()
    }

    /// Takes a piece and posts its frames. Pending where the link is not ready, or where reading has ended.
    pub(crate) fn read_on<M: Home, R: Wait>(
        &mut self,
        rt: &R,
        host: &Host<W, J, M>,
        context: &mut Context<'_>,
    ) -> Poll<()>
        requires midst { IsMidst W.opened W.keeps J.name.passes self.old.pass self.old.link self.old.course [] }
        ensures goes { GoesOn W.opened W.keeps J.name.passes self.old.pass self.old.link self.old.course [] self.new.pass self.new.link self.new.course [] }
        ensures waits { OnPending result (WaitsToRead self.old.link self.new.link self.new.course) }
        ensures still { OnPending result (IsStill self.old.course self.new.course) }
        ensures later { IsLater self.old.pass self.old.link self.new.pass self.new.link }
        ensures armed { OnPending result (self.new.course.end ≡ None → IsArmed context.new) }
        ensures kept { Keeps context.old context.new }
    {
        if self.course.end.is_some() {
            return Poll::Pending;
        }
        match poll_frames(&mut self.link, &mut self.course.decoder, context) {
            Poll::Ready(Ok(frames)) => {
                self.entered = true;
                self.take_in(rt, host, frames);
                Poll::Ready(())
            }
            Poll::Ready(Err(end)) => {
                self.entered = true;
                self.end_reading(rt, host, end);
                Poll::Ready(())
            }
            Poll::Pending => Poll::Pending,
        }
    }

    /// Puts some of what was handed, or hands more. Pending where the link is not ready, where nothing waits to be handed,
    /// or where there is no connection.
    pub(crate) fn write_on<M: Home, R: Wait>(
        &mut self,
        rt: &R,
        host: &Host<W, J, M>,
        context: &mut Context<'_>,
    ) -> Poll<()>
        requires writes { self.old.course.write ≡ None }
        requires midst { IsMidst W.opened W.keeps J.name.passes self.old.pass self.old.link self.old.course [] }
        ensures goes { GoesOn W.opened W.keeps J.name.passes self.old.pass self.old.link self.old.course [] self.new.pass self.new.link self.new.course [] }
        ensures waits { OnPending result (WaitsToWrite W.opened self.old.pass self.old.link self.new.pass self.new.link self.new.course) }
        ensures later { IsLater self.old.pass self.old.link self.new.pass self.new.link }
        ensures armed { OnPending result (IsSome self.new.course.conn → IsArmed context.new) }
        ensures kept { Keeps context.old context.new }
        ensures still { OnPending result (IsStill self.old.course self.new.course) }
    {
        let Some(conn) = self.course.conn else {
            return Poll::Pending;
        };
        if !self.course.failed && !self.course.outgoing.is_empty() {
            return self.put(rt, host, conn, context);
        }
        if self.course.gone {
            self.end_writing();
            return Poll::Ready(());
        }
        self.hand(rt, host, conn, context)
    }

    // Posts the frames that came, or logs in.
    fn take_in<M: Home, R: Wait>(&mut self, rt: &R, host: &Host<W, J, M>, frames: Vec<ClientFrame>)
        requires reads { self.old.course.end ≡ None }
        requires midst { IsMidst W.opened W.keeps J.name.passes self.old.pass self.old.link self.old.course (map frame_of frames.items) }
        ensures goes { GoesOn W.opened W.keeps J.name.passes self.old.pass self.old.link self.old.course (map frame_of frames.items) self.new.pass self.new.link self.new.course [] }
        ensures later { IsLater self.old.pass self.old.link self.new.pass self.new.link }
    {
        match self.course.conn {
            Some(conn) => self.post(rt, host, conn, frames),
            None if frames.as_slice().is_empty() => {}
            None => self.log_in(rt, host, frames),
        }
    }

    // Connects the client of the first frame, and posts what follows it.
    fn log_in<M: Home, R: Wait>(
        &mut self,
        rt: &R,
        host: &Host<W, J, M>,
        mut frames: Vec<ClientFrame>,
    )
        requires some { 0 < length frames.items }
        requires reads { self.old.course.end ≡ None }
        requires new { self.old.course.conn ≡ None }
        requires midst { IsMidst W.opened W.keeps J.name.passes self.old.pass self.old.link self.old.course (map frame_of frames.items) }
        ensures goes { GoesOn W.opened W.keeps J.name.passes self.old.pass self.old.link self.old.course (map frame_of frames.items) self.new.pass self.new.link self.new.course [] }
        ensures later { IsLater self.old.pass self.old.link self.new.pass self.new.link }
    {
        let ClientFrame::Login(name) = frames.remove(0) else {
            unreachable!()
        };
        match host.connect(rt, &mut self.pass, &name) {
            Ok(conn) => {
                self.course.conn = Some(conn);
                self.post(rt, host, conn, frames);
                self.link.belong_to(conn);
            }
            Err(refused) => self.end_reading(rt, host, SessionEnd::from(refused)),
        }
    }

    // Posts what the frames ask. Where that ends the reading, it posts the Disconnect too.
    fn post<M: Home, R: Wait>(
        &mut self,
        rt: &R,
        host: &Host<W, J, M>,
        conn: ConnNo,
        frames: Vec<ClientFrame>,
    )
        requires reads { self.old.course.end ≡ None }
        requires conn { self.old.course.conn ≡ Some conn }
        requires midst { IsMidst W.opened W.keeps J.name.passes self.old.pass self.old.link self.old.course (map frame_of frames.items) }
        ensures goes { GoesOn W.opened W.keeps J.name.passes self.old.pass self.old.link self.old.course (map frame_of frames.items) self.new.pass self.new.link self.new.course [] }
        ensures later { IsLater self.old.pass self.old.link self.new.pass self.new.link }
    {
        match post_frames(rt, host, &mut self.pass, conn, frames) {
            Ok(Progress::All) => {}
            Ok(Progress::ToLogout) => self.end_reading(rt, host, SessionEnd::Logout),
            Err(refused) => self.end_reading(rt, host, SessionEnd::from(refused)),
        }
    }

    // Reading ends so, with its Disconnect.
    fn end_reading<M: Home, R: Wait>(&mut self, rt: &R, host: &Host<W, J, M>, end: SessionEnd)
        ensures ends { EndsReading W.opened W.keeps J.name.passes self.old.course.conn end self.old.pass self.old.course self.new.pass self.new.course }
        ensures link { self.new.link ≡ self.old.link }
    {
        match self.course.conn {
            Some(conn) => close(rt, host, &mut self.pass, conn, end),
            None => self.course.write = Some(WriteEnd::Done),
        }
        self.course.end = Some(end);
    }

    // Puts some of what was handed. Pending where the link is not ready.
    fn put<M: Home, R: Wait>(
        &mut self,
        rt: &R,
        host: &Host<W, J, M>,
        conn: ConnNo,
        context: &mut Context<'_>,
    ) -> Poll<()>
        requires conn { self.old.course.conn ≡ Some conn }
        requires writes { self.old.course.write ≡ None }
        requires puts { self.old.course.failed ≡ false }
        requires midst { IsMidst W.opened W.keeps J.name.passes self.old.pass self.old.link self.old.course [] }
        ensures goes { GoesOn W.opened W.keeps J.name.passes self.old.pass self.old.link self.old.course [] self.new.pass self.new.link self.new.course [] }
        ensures waits { OnPending result (HasRisen self.old.link.put_waits self.new.link.put_waits) }
        ensures later { IsLater self.old.pass self.old.link self.new.pass self.new.link }
        ensures armed { OnPending result (IsArmed context.new) }
        ensures kept { Keeps context.old context.new }
        ensures still { OnPending result (IsStill self.old.course self.new.course) }
    {
        match self
            .course
            .outgoing
            .put(self.alloc, &mut self.link, context)
        {
            Poll::Ready(Ok(())) => Poll::Ready(()),
            Poll::Ready(Err(PutRefused::Failed)) => {
                disconnect(rt, host, &mut self.pass, conn, false);
                self.course.outgoing = Outgoing::new(self.alloc);
                self.course.failed = true;
                self.entered = true;
                Poll::Ready(())
            }
            Poll::Ready(Err(PutRefused::NoMemory)) => {
                self.give_up(rt, host, conn);
                Poll::Ready(())
            }
            Poll::Pending => Poll::Pending,
        }
    }

    // Hands. Pending where nothing waits to be handed, and then it asks for another poll.
    fn hand<M: Home, R: Wait>(
        &mut self,
        rt: &R,
        host: &Host<W, J, M>,
        conn: ConnNo,
        context: &mut Context<'_>,
    ) -> Poll<()>
        requires conn { self.old.course.conn ≡ Some conn }
        requires writes { self.old.course.write ≡ None }
        requires there { self.old.course.gone ≡ false }
        requires empty { self.old.course.failed ≡ false → self.old.course.outgoing ≡ [] }
        requires midst { IsMidst W.opened W.keeps J.name.passes self.old.pass self.old.link self.old.course [] }
        ensures goes { GoesOn W.opened W.keeps J.name.passes self.old.pass self.old.link self.old.course [] self.new.pass self.new.link self.new.course [] }
        ensures waits { OnPending result (FindsNothing W.opened self.new.pass.number conn self.old.pass.front self.new.pass.front) }
        ensures later { IsLater self.old.pass self.old.link self.new.pass self.new.link }
        ensures armed { OnPending result (IsArmed context.new) }
        ensures kept { Keeps context.old context.new }
        ensures still { OnPending result (IsStill self.old.course self.new.course) }
    {
        let Ok(handed) = host.hand(rt, &mut self.pass, conn, HAND_MOST_COUNT) else {
            self.give_up(rt, host, conn);
            return Poll::Ready(());
        };
        let idle = is_nothing(&handed);
        self.keep(handed);
        if idle {
            return context.yield_now();
        }
        Poll::Ready(())
    }

    // Keeps what was handed, to put its frames. Where the connection is gone reading ends as closed.
    fn keep(&mut self, handed: Handed)
        requires short { All HasShortBody handed.outs }
        ensures { self.new ≡ record self.old { course = with_handed self.old.course handed.outs handed.end } }
    {
        let Handed { outs, end: gone } = handed;
        if !self.course.failed {
            self.course.outgoing = Outgoing::of(self.alloc, outs);
        }
        if gone && self.course.end.is_none() {
            self.course.end = Some(SessionEnd::Closed);
        }
        self.course.gone = gone;
    }

    // Ends for want of memory: reading too, if it has not ended.
    fn give_up<M: Home, R: Wait>(&mut self, rt: &R, host: &Host<W, J, M>, conn: ConnNo)
        requires conn { self.old.course.conn ≡ Some conn }
        requires writes { self.old.course.write ≡ None }
        requires midst { IsMidst W.opened W.keeps J.name.passes self.old.pass self.old.link self.old.course [] }
        ensures goes { GoesOn W.opened W.keeps J.name.passes self.old.pass self.old.link self.old.course [] self.new.pass self.new.link self.new.course [] }
        ensures later { IsLater self.old.pass self.old.link self.new.pass self.new.link }
    {
        self.stop_reading(rt, host, conn);
        self.stop_writing(rt, host, conn);
    }

    // Ends reading for want of memory, if it has not ended.
    fn stop_reading<M: Home, R: Wait>(&mut self, rt: &R, host: &Host<W, J, M>, conn: ConnNo)
        requires conn { self.old.course.conn ≡ Some conn }
        requires midst { IsMidst W.opened W.keeps J.name.passes self.old.pass self.old.link self.old.course [] }
        ensures goes { GoesOn W.opened W.keeps J.name.passes self.old.pass self.old.link self.old.course [] self.new.pass self.new.link self.new.course [] }
        ensures later { IsLater self.old.pass self.old.link self.new.pass self.new.link }
        ensures ended { IsSome self.new.course.end }
        ensures conn { self.new.course.conn ≡ Some conn }
        ensures writes { self.new.course.write ≡ self.old.course.write }
    {
        if self.course.end.is_some() {
            return;
        }
        self.end_reading(rt, host, SessionEnd::NoMemory);
    }

    // Ends writing for want of memory, with its Disconnect, if none was posted before.
    fn stop_writing<M: Home, R: Wait>(&mut self, rt: &R, host: &Host<W, J, M>, conn: ConnNo)
        requires conn { self.old.course.conn ≡ Some conn }
        requires writes { self.old.course.write ≡ None }
        requires ended { IsSome self.old.course.end }
        requires midst { IsMidst W.opened W.keeps J.name.passes self.old.pass self.old.link self.old.course [] }
        ensures goes { GoesOn W.opened W.keeps J.name.passes self.old.pass self.old.link self.old.course [] self.new.pass self.new.link self.new.course [] }
        ensures later { IsLater self.old.pass self.old.link self.new.pass self.new.link }
    {
        if self.course.failed {
            self.course.write = Some(WriteEnd::NoMemory);
            return;
        }
        disconnect(rt, host, &mut self.pass, conn, false);
        self.course.write = Some(WriteEnd::NoMemory);
    }

    // The connection is gone, and all was put that could be.
    fn end_writing(&mut self)
        ensures { self.new ≡ record self.old { course = record self.old.course { write = Some (if self.old.course.failed then WriteEnd.WriteFault else WriteEnd.Done) } } }
    {
        self.course.write = Some(if self.course.failed {
            WriteEnd::WriteFault
        } else {
            WriteEnd::Done
        });
    }
}

/// Whether nothing was handed, and the connection is there.
fn is_nothing(handed: &Handed) -> bool
    ensures outs { result ≡ true → handed.now.outs ≡ [] }
    ensures end { result ≡ true → handed.now.end ≡ false }
{
    if handed.end {
        return false;
    }
    handed.outs.as_slice().is_empty()
}
