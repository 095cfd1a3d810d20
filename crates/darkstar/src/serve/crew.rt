//! The crew of a server: a ticker, workers and places.
ghost use Rattle.std.specs.Prelude.{◌≡◌, ◌+◌, ◌≤◌, IfOk, vec_len};

use super::ServeTerms;
use super::counting::MemberDone;
use super::gate::ServerGate;
use super::server::Server;
use dk_disk::Home;
use dk_edge::{Activity, Clock, Link, Listener};
use dk_game::Game;
use dk_host::{Hosting, WorldBook};
use dk_pump::{Doorway, LinkCount, Place};
use dk_turn::{Naming, Pass, Waking};
use std::alloc::{AllocError, AllocGlobal, Global};
use std::random::RandomSource;
use std::sync::Wait;
use std::sync::ledger::Share;

/// What a member does, with what it has of its own.
#[derive(Drop)]
pub(crate) enum Role<A, B> {
    Ticker(A),
    Worker(u32, A),
    /// With the pass by which its thread runs jobs between.
    Place(B, A),
}

/// A member of the crew, which is lent the server.
#[derive(Drop)]
pub(crate) struct Member<
    's,
    'a,
    'n,
    W: Hosting,
    J: Naming,
    M: Home,
    K: Link + Drop,
    L: Listener<Whole = K>,
    D: Doorway,
    C: Clock,
    G: Game,
    T: ServerGate,
    R: Wait,
> {
    pub(crate) server: &'s Server<'a, 'n, W, J, M, L, D, C, G, T, R>,
    pub(crate) role: Role<Pass<WorldBook<W>, J>, Place<W, J, D, K>>,
}

impl<
    's,
    'a,
    'n,
    W: Hosting,
    J: Naming,
    M: Home,
    K: Link + Drop,
    L: Listener<Whole = K>,
    D: Doorway,
    C: Clock,
    G: Game,
    T: ServerGate,
    R: Wait + RandomSource + AllocGlobal,
> Activity for Member<'s, 'a, 'n, W, J, M, K, L, D, C, G, T, R> {
    type Done = MemberDone<D, K>;

    ghost may_give = { λ _ _. Unit {0} };

    fn go(self) -> MemberDone<D, K> {
        let Member { server, role } = self;
        match role {
            Role::Ticker(pass) => server.tick(pass),
            Role::Worker(number, pass) => server.work(number, pass),
            Role::Place(place, helper) => server.serve(place, helper),
        }
    }
}

/// The caller of a crew, which waits for the others and does nothing.
#[derive(Drop)]
pub(crate) struct Waiting;

impl Activity for Waiting {
    type Done = ();

    ghost may_give = { λ _ _. Unit {0} };

    fn go(self) {}
}

/// A ticker, then the workers and then the places, as far as there are passes. Each place has one part of the ledger.
/// Only workers wait for the host, and a tick wakes them: whose step brings work goes on with it.
pub(crate) fn roles<W: Hosting, J: Naming, D: Doorway, K: Link + Drop>(
    alloc: Global,
    mut passes: Vec<Pass<WorldBook<W>, J>>,
    share: &mut Share<D>,
    terms: ServeTerms,
) -> Result<Vec<Role<Pass<WorldBook<W>, J>, Place<W, J, D, K>>>, AllocError>
    requires share { (terms.clients ≤ share.old.parts) × (share.old.amount ≡ 0) }
    ensures size { IfOk result (λ roles. vec_len roles ≤ terms.workers + terms.clients + 1) }
{
    let mut roles = Vec::new(alloc);
    if let Some(pass) = passes.pop() {
        roles.push(Role::Ticker(pass))?;
    }
    for number in 0..terms.workers {
        if let Some(mut pass) = passes.pop() {
            pass.set_waking(Waking::Nobody);
            roles.push(Role::Worker(u32::from(number), pass))?;
        }
    }
    for _place in 0..terms.clients {
        if let (Some(mut pass), Some(mut helper)) = (passes.pop(), passes.pop()) {
            pass.set_waking(Waking::Nobody);
            helper.set_waking(Waking::Nobody);
            let count = LinkCount::new(share.split_off(1, 0));
            roles.push(Role::Place(Place::new(pass, count), helper))?;
        }
    }
    Ok(roles)
}
