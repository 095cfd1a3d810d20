//! A session whose thread runs jobs between its polls.
ghost use Rattle.std.specs.Prelude.{◌≡◌, IfSome, IsSome};

use crate::done::SessionDone;
use crate::future::SessionFuture;
use dk_disk::Home;
use dk_edge::Link;
use dk_host::Hosting;
use dk_turn::Naming;
use futures::Future;
use futures::task::{Context, Poll};
use std::sync::Wait;

/// What the thread of a session does where the session entered something and can not go on.
pub trait Help {
    /// Does a little, and comes back. No contract speaks of it.
    fn help(&mut self);
}

/// A session that helps behind a poll that entered something and is pending. So what a client asks is answered by the thread
/// that heard it, and no other has to be woken. What is done between the polls is no part of what the session gives.
pub(crate) struct HelpedSession<
    'h,
    's,
    W: Hosting,
    J: Naming,
    M: Home,
    H: Help,
    R: Wait,
    K: Link + Drop,
> {
    session: SessionFuture<'s, W, J, M, R, K>,
    help: &'h mut H,
}

impl<W: Hosting, J: Naming, M: Home, H: Help, R: Wait, K: Link + Drop> Drop
    for HelpedSession<'_, '_, W, J, M, H, R, K> {
    fn drop(self) {
        let HelpedSession {
            session: _,
            help: _,
        } = self;
    }
}

impl<'h, 's, W: Hosting, J: Naming, M: Home, H: Help, R: Wait, K: Link + Drop> HelpedSession<
    'h,
    's,
    W,
    J,
    M,
    H,
    R,
    K,
> {
    /// The session, which has not been polled with this help. Takes no memory.
    pub(crate) fn new(
        session: SessionFuture<'s, W, J, M, R, K>,
        help: &'h mut H,
    ) -> HelpedSession<'h, 's, W, J, M, H, R, K>
        ensures { result.session ≡ session.entry }
    {
        HelpedSession { session, help }
    }
}

impl<W: Hosting, J: Naming, M: Home, H: Help, R: Wait, K: Link + Drop> Future
    for HelpedSession<'_, '_, W, J, M, H, R, K> {
    type Output = SessionDone<W, J, K>;

    ghost can_poll = { λ a. IsSome a.session.underway };

    ghost gives = { λ a done. IfSome a.session.underway (λ u. (done.began ≡ u.began) × (done.given ≡ u.given)) };

    fn poll(&mut self, context: &mut Context<'_>) -> Poll<SessionDone<W, J, K>> {
        match self.session.poll(context) {
            Poll::Ready(done) => Poll::Ready(done),
            Poll::Pending => {
                if self.session.take_entered() {
                    self.help.help();
                } else {
                    self.session.rest();
                }
                Poll::Pending
            }
        }
    }
}
