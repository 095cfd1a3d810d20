//! A session as one future.
ghost use Rattle.std.specs.Prelude.{◌≡◌, IfSome, IsSome};
ghost use Rattle.futures.specs.Poll.{IfReady, OnPending};
ghost use Rattle.futures.specs.Task.{Covers, Keeps};
ghost use Rattle.dk_pump.specs.Sessions.{Ended};
ghost use Rattle.dk_pump.specs.Waiting.{MayWait};

use crate::course::Course;
use crate::done::SessionDone;
use crate::session::Session;
use crate::watched::Watched;
use dk_disk::Home;
use dk_edge::Link;
use dk_host::{Host, Hosting, WorldBook};
use dk_turn::{Naming, Pass};
use futures::Future;
use futures::task::{Context, Poll};
use std::alloc::Global;
use std::marker::Model;
use std::mem;
use std::snapshot::Snapshot;
use std::sync::Wait;

/// A session that has not ended, and what it began with.
#[derive(Drop)]
struct Underway<W: Hosting, J: Naming, K: Link + Drop> {
    began: Snapshot<Pass<WorldBook<W>, J>>,
    given: Snapshot<Watched<K>>,
    session: Session<W, J, K>,
}

impl<W: Hosting, J: Naming, K: Link + Drop> Model for Underway<W, J, K> {
    ghost use Rattle.std.specs.Prelude.{[]};
    ghost use Rattle.dk_pump.specs.Sessions.{IsSession, Midst};

    ghost Value = { Midst };

    ghost view = { λ a. record { began = a.began.value; given = a.given.value; pass = a.session.pass; link = a.session.link; course = a.session.course } };

    ghost invariant = { λ a. ∥ IsSession W.opened W.keeps J.name.passes a.began.value a.given.value a.session.pass a.session.link a.session.course [] ∥₁ };
}

/// A session over a link, polled until it has ended: it reads as `greet` and `read_session` do and writes as
/// `write_session` does. Each poll goes on with all that is ready. It may wait for the host.
#[derive(Drop)]
pub struct SessionFuture<'h, W: Hosting, J: Naming, M: Home, R: Wait, K: Link + Drop> {
    rt: &'h R,
    host: &'h Host<W, J, M>,
    // None once it has ended.
    underway: Option<Underway<W, J, K>>,
}

impl<'h, W: Hosting, J: Naming, M: Home, R: Wait, K: Link + Drop> SessionFuture<'h, W, J, M, R, K> {
    /// A session that has not begun. Takes no memory.
    pub fn new(
        rt: &'h R,
        alloc: Global,
        host: &'h Host<W, J, M>,
        pass: Pass<WorldBook<W>, J>,
        link: K,
    ) -> SessionFuture<'h, W, J, M, R, K>
        ensures there { IsSome result.underway }
        ensures began { IfSome result.underway (λ u. u.began ≡ pass) }
        ensures given { IfSome result.underway (λ u. u.given ≡ record { left = K.remaining link; contents = K.contents link; take_counted = K.take_counted link; put_counted = K.put_counted link; take_waits = 0; put_waits = 0 }) }
    {
        let link = Watched::new(link);
        SessionFuture {
            rt,
            host,
            underway: Some(Underway {
                began: Snapshot::of(&pass),
                given: Snapshot::of(&link),
                session: Session {
                    pass,
                    link,
                    course: Course::new(alloc),
                    alloc,
                    entered: false,
                },
            }),
        }
    }

    /// Whether a poll entered something of the client since this was last asked.
    pub(crate) fn take_entered(&mut self) -> bool
        ensures { self.new ≡ self.old }
    {
        match &mut self.underway {
            Some(underway) => mem::replace(&mut underway.session.entered, false),
            None => false,
        }
    }

    /// Rests the link of a session that is read no more, for which no take waits.
    pub(crate) fn rest(&mut self)
        ensures { self.new ≡ self.old }
    {
        if let Some(underway) = &mut self.underway {
            if underway.session.course.end.is_some() {
                underway.session.link.rest();
            }
        }
    }
}

impl<W: Hosting, J: Naming, M: Home, R: Wait, K: Link + Drop> Future
    for SessionFuture<'_, W, J, M, R, K> {
    type Output = SessionDone<W, J, K>;

    ghost can_poll = { λ f. IsSome f.underway };

    ghost gives = { λ f done. IfSome f.underway (λ u. (done.began ≡ u.began) × (done.given ≡ u.given)) };

    fn poll(&mut self, context: &mut Context<'_>) -> Poll<SessionDone<W, J, K>>
        requires { IsSome self.old.underway }
        ensures value { IfReady result (λ done. IfSome self.old.underway (λ u. (done.began ≡ u.began) × (done.given ≡ u.given))) }
        ensures again { OnPending result (IsSome self.new.underway) }
        ensures same { OnPending result ((x : Ended) → IfSome self.new.underway (λ u. (x.began ≡ u.began) × (x.given ≡ u.given)) → IfSome self.old.underway (λ u. (x.began ≡ u.began) × (x.given ≡ u.given))) }
        ensures registered { OnPending result (Covers context.new (λ _. ⊥)) }
        ensures kept { Keeps context.old context.new }

        // When it may be pending, beyond what each future says.
        ensures waits { OnPending result (IfSome self.old.underway (λ u. IfSome self.new.underway (λ v. MayWait W.opened u.pass u.link v.pass v.link v.course))) }
    {
        let Some(underway) = self.underway.take() else {
            unreachable!()
        };
        let Underway {
            began,
            given,
            mut session,
        } = underway;
        match session.go_on(self.rt, self.host, context) {
            Poll::Pending => {
                self.underway = Some(Underway {
                    began,
                    given,
                    session,
                });
                Poll::Pending
            }
            Poll::Ready((end, write)) => {
                let Session {
                    pass,
                    link,
                    course: _,
                    alloc: _,
                    entered: _,
                } = session;
                Poll::Ready(SessionDone {
                    end,
                    write,
                    pass,
                    link,
                    began,
                    given,
                })
            }
        }
    }
}
