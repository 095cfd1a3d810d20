//! A session that has ended.
ghost use Rattle.std.specs.Prelude.{◌≡◌};
ghost use Rattle.dk_pump.specs.Places.{IsSoundEnd};
ghost use Rattle.dk_pump.specs.Sessions.{HasEnded};

use crate::ends::{SessionEnd, WriteEnd};
use crate::watched::Watched;
use dk_edge::Link;
use dk_host::{Hosting, WorldBook};
use dk_turn::{Naming, Pass};
use std::marker::Model;
use std::snapshot::Snapshot;

/// How a session ended, its pass and its link. A session's future alone makes one, so what it keeps holds of each: what
/// the session did, from the pass and the link that the future was made with to these.
#[derive(Drop)]
pub struct SessionDone<W: Hosting, J: Naming, K: Link + Drop> {
    pub(crate) end: SessionEnd,
    pub(crate) write: WriteEnd,
    pub(crate) pass: Pass<WorldBook<W>, J>,
    pub(crate) link: Watched<K>,
    pub(crate) began: Snapshot<Pass<WorldBook<W>, J>>,
    pub(crate) given: Snapshot<Watched<K>>,
}

impl<W: Hosting, J: Naming, K: Link + Drop> Model for SessionDone<W, J, K> {
    ghost use Rattle.dk_pump.specs.Sessions.{Ended, HasEnded};

    ghost Value = { Ended };

    ghost view = { λ a. record { end = a.end; write = a.write; began = a.began.value; given = a.given.value; pass = a.pass; link = a.link } };

    ghost invariant = { λ a. ∥ HasEnded W.opened W.keeps J.name.passes (record { end = a.end; write = a.write; began = a.began.value; given = a.given.value; pass = a.pass; link = a.link }) ∥₁ };
}

impl<W: Hosting, J: Naming, K: Link + Drop> SessionDone<W, J, K> {
    /// How its reading ended.
    pub fn end(&self) -> SessionEnd
        ensures is { result ≡ self.now.end }
        ensures sound { IsSoundEnd result }
    {
        self.end
    }

    /// How its writing ended.
    pub fn write(&self) -> WriteEnd
        ensures { result ≡ self.now.write }
    {
        self.write
    }

    /// The pass, with which the session's events were entered.
    pub fn pass(&self) -> &Pass<WorldBook<W>, J>
        ensures { result.now ≡ self.now.pass }
    {
        &self.pass
    }

    /// The link.
    pub fn link(&self) -> &K
        ensures take { (K.remaining result.now ≡ self.now.link.left) × (K.take_counted result.now ≡ self.now.link.take_counted) }
        ensures put { (K.contents result.now ≡ self.now.link.contents) × (K.put_counted result.now ≡ self.now.link.put_counted) }
    {
        self.link.link()
    }

    /// What the session did, which its type keeps. It does nothing.
    pub fn has_ended(&self)
        ensures { ∥ HasEnded W.opened W.keeps J.name.passes self.now ∥₁ }
    {
        let _ = &self.end;
    }

    /// How its reading and its writing ended, the pass and the link.
    pub fn into_parts(self) -> (SessionEnd, WriteEnd, Pass<WorldBook<W>, J>, K)
        ensures ends { (result.0 ≡ self.end) × (result.1 ≡ self.write) }
        ensures pass { result.2 ≡ self.pass }
        ensures take { (K.remaining result.3 ≡ self.link.left) × (K.take_counted result.3 ≡ self.link.take_counted) }
        ensures put { (K.contents result.3 ≡ self.link.contents) × (K.put_counted result.3 ≡ self.link.put_counted) }
        ensures ended { ∥ HasEnded W.opened W.keeps J.name.passes self ∥₁ }
    {
        let SessionDone {
            end,
            write,
            pass,
            link,
            began: _,
            given: _,
        } = self;
        (end, write, pass, link.into_link())
    }
}
