//! A place of a server: sessions one after another, each on a link from the door.
ghost use Rattle.std.specs.Prelude.{◌≡◌, IfSome};
ghost use Rattle.dk_pump.specs.Places.{IsSoundEnd, IsSoundPlaceEnd};

use crate::arrivals::{Doorway, NoLink};
use crate::done::SessionDone;
use crate::door::Door;
use crate::ends::SessionEnd;
use crate::future::SessionFuture;
use crate::helped::{Help, HelpedSession};
use crate::link_count::LinkCount;
use dk_disk::Home;
use dk_edge::{Link, Listener};
use dk_host::{Host, Hosting, WorldBook};
use dk_turn::{Naming, Pass};
use futures::executor::block_on;
use std::alloc::{AllocGlobal, Global};
use std::random::RandomSource;
use std::sync::Wait;

/// What a place has between two sessions: its pass, and how many links it took and sessions on them have ended.
#[derive(Drop)]
pub struct Place<W: Hosting, J: Naming, D: Doorway, K> {
    pub(crate) pass: Pass<WorldBook<W>, J>,
    pub(crate) count: LinkCount<D, K>,
    pub(crate) ghost one: { count.places ≡ 1 },
}

/// Why a place took no further link.
#[derive(Clone, Copy, Debug, PartialEq, Eq)]
pub enum PlaceEnd {
    /// The door gave none.
    NoLink(NoLink),
    /// A session found no number for its connection: `next` would be the next one.
    Exhausted { next: u64 },
}

/// A place that has ended.
#[derive(Drop)]
pub struct PlaceDone<W: Hosting, J: Naming, D: Doorway, K> {
    pub place: Place<W, J, D, K>,
    pub end: PlaceEnd,
}

// A place that asked for one link, and how it ended, if it did.
struct Turn<W: Hosting, J: Naming, D: Doorway, K> {
    place: Place<W, J, D, K>,
    end: Option<PlaceEnd>,
}

impl<W: Hosting, J: Naming, D: Doorway, K: Link + Drop> Place<W, J, D, K> {
    /// A place with this pass, which goes on from this count.
    pub fn new(pass: Pass<WorldBook<W>, J>, count: LinkCount<D, K>) -> Place<W, J, D, K>
        requires one { count.places ≡ 1 }
        ensures pass { result.pass ≡ pass }
        ensures count { result.count ≡ count }
    {
        Place { pass, count }
    }

    /// The pass, with which the sessions' events were entered, and the count.
    pub fn into_parts(self) -> (Pass<WorldBook<W>, J>, LinkCount<D, K>)
        ensures pass { result.0 ≡ self.pass }
        ensures count { result.1 ≡ self.count }
        ensures one { result.1.places ≡ 1 }
    {
        let Place { pass, count } = self;
        (pass, count)
    }

    /// Sessions one after another, until the door gives no link, or a session finds no number, which ends the server. None
    /// where there was no memory to run a session, whose pass and link are lost with the place. Where a session entered
    /// something and can not go on, its thread helps.
    pub fn serve<L: Listener<Whole = K>, M: Home, H: Help, R: Wait + RandomSource + AllocGlobal>(
        self,
        rt: &R,
        alloc: Global,
        host: &Host<W, J, M>,
        door: &Door<'_, L, D>,
        help: &mut H,
    ) -> Option<PlaceDone<W, J, D, K>>
        ensures number { IfSome result (λ done. done.place.pass.number ≡ self.pass.number) }
        ensures end { IfSome result (λ done. IsSoundPlaceEnd done.end) }
    {
        let done = self.go_on(rt, alloc, host, door, help);
        door.leave();
        done
    }

    // The same, without leaving the door.
    fn go_on<L: Listener<Whole = K>, M: Home, H: Help, R: Wait + RandomSource + AllocGlobal>(
        self,
        rt: &R,
        alloc: Global,
        host: &Host<W, J, M>,
        door: &Door<'_, L, D>,
        help: &mut H,
    ) -> Option<PlaceDone<W, J, D, K>>
        ensures number { IfSome result (λ done. done.place.pass.number ≡ self.pass.number) }
        ensures end { IfSome result (λ done. IsSoundPlaceEnd done.end) }
    {
        let mut place = self;
        for _ in rt.forever() {
            let turn = place.next(rt, alloc, host, door, help)?;
            let Turn { place: later, end } = turn;
            if let Some(end) = end {
                return Some(PlaceDone { place: later, end });
            }
            place = later;
        }
        unreachable!()
    }

    // One session, if there is a link for it.
    fn next<L: Listener<Whole = K>, M: Home, H: Help, R: Wait + RandomSource + AllocGlobal>(
        self,
        rt: &R,
        alloc: Global,
        host: &Host<W, J, M>,
        door: &Door<'_, L, D>,
        help: &mut H,
    ) -> Option<Turn<W, J, D, K>>
        ensures number { IfSome result (λ turn. turn.place.pass.number ≡ self.pass.number) }
        ensures end { IfSome result (λ turn. IfSome turn.end IsSoundPlaceEnd) }
    {
        let Place { pass, count } = self;
        let LinkCount {
            places,
            mut share,
            mut tally,
        } = count;
        let link = match door.next(rt, &mut share) {
            Ok(link) => link,
            Err(why) => {
                let count = LinkCount {
                    places,
                    share,
                    tally,
                };
                let place = Place { pass, count };
                let end = Some(PlaceEnd::NoLink(why));
                return Some(Turn { place, end });
            }
        };
        let done = run(rt, alloc, host, pass, link, help)?;
        // With its last event the session is no more polled.
        help.help();
        let end = PlaceEnd::of(done.end());
        if end.is_some() {
            door.end();
        }
        let pass = tally.add(done);
        let count = LinkCount {
            places,
            share,
            tally,
        };
        let place = Place { pass, count };
        Some(Turn { place, end })
    }
}

impl PlaceEnd {
    // How a place ends at which a session ended so, if that ends the place.
    fn of(end: SessionEnd) -> Option<PlaceEnd>
        requires { IsSoundEnd end }
        ensures { IfSome result IsSoundPlaceEnd }
    {
        match end {
            SessionEnd::Exhausted { next } => Some(PlaceEnd::Exhausted { next }),
            _ => None,
        }
    }
}

// Runs a session to its end, and helps between. None where there was no memory to run it.
fn run<
    W: Hosting,
    J: Naming,
    M: Home,
    K: Link + Drop,
    H: Help,
    R: Wait + RandomSource + AllocGlobal,
>(
    rt: &R,
    alloc: Global,
    host: &Host<W, J, M>,
    pass: Pass<WorldBook<W>, J>,
    link: K,
    help: &mut H,
) -> Option<SessionDone<W, J, K>>
    ensures { IfSome result (λ done. done.pass.number ≡ pass.number) }
{
    let session = SessionFuture::new(rt, alloc, host, pass, link);
    match block_on(rt, HelpedSession::new(session, help)) {
        Ok(done) => {
            done.has_ended();
            Some(done)
        }
        Err(_) => None,
    }
}
