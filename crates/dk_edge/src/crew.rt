//! Activities side by side, each member of a crew on a thread of its own.
//!
//! The threads wait at a gate, which opens when all of them are made: an activity goes once, or where a thread can not be
//! made, none does.
ghost use Rattle.std.specs.Prelude.{◌≡◌, ◌≤◌, [], map, length, IfSome, MatchResult};
ghost use Rattle.std.specs.List.{AllZip};
ghost use Rattle.std.specs.Vec.{vec_capacity};

use crate::activity::Activity;
use std::alloc::Global;
use std::snapshot::Snapshot;
use std::sync::{OnceLock, Wait};
use std::thread::{self, Promise, PromisedHandle, Scope, Threads};

/// What the activities of a crew came to, the members' in their order.
#[derive(Drop)]
pub struct Crew<D, E> {
    pub members: Vec<D>,
    pub own: E,
}

/// What the threads of a crew are told at the gate.
#[derive(Drop)]
enum Signal {
    /// All threads are made.
    Begin,
    /// A thread could not be made.
    Leave,
}

/// The member that a thread was made for.
#[derive(Drop)]
struct MadeFor<W>(Snapshot<W>);

impl<W: Activity> Promise<Result<W::Done, W>> for MadeFor<W> {
    ghost kept_by = { λ p r. MatchResult r (λ done. W.may_give p.0.value done) (λ member. member ≡ p.0.value) };
}

/// A thread of a crew. It gives what its member came to, or the member.
type Hand<W> = PromisedHandle<Result<<W as Activity>::Done, W>, MadeFor<W>>;

/// Runs the members on threads of their own and `own` on this one, and waits for all. None where a thread could not be made
/// or there was no memory; then none was begun.
pub(crate) fn run<W: Activity + Send + Drop, O: Activity + Drop, R: Threads + Wait + Sync>(
    rt: &R,
    members: Vec<W>,
    own: O,
) -> Option<Crew<W::Done, O::Done>>
where
    W::Done: Send + Drop,
    O::Done: Drop,
    ensures members { IfSome result (λ crew. AllZip W.may_give members.items crew.members.items) }
    ensures own { IfSome result (λ crew. O.may_give own crew.own) }
{
    let alloc = *members.allocator();
    let mut dones = Vec::new(alloc);
    dones.reserve(members.len()).ok()?;
    let gate = OnceLock::new();
    let shared = &gate;
    thread::scope(
        thread::scope_env(),
        rt,
        |scope| -> Option<Crew<W::Done, O::Done>>
            requires { (dones.items ≡ []) × (length members.items ≤ vec_capacity dones) }
            ensures { IfSome result (λ crew. AllZip W.may_give members.items crew.members.items × O.may_give own crew.own) }
        {
            let Some(hands) = start(rt, alloc, scope, shared, members) else {
                let _ = shared.set(rt, Signal::Leave);
                return None;
            };
            let _ = shared.set(rt, Signal::Begin);
            let own = own.go();
            Some(Crew {
                members: join(rt, hands, dones),
                own,
            })
        },
    )
}

/// A thread for each member, if all can be made.
fn start<'s, E, W: Activity + Send + Drop + 's, R: Wait + Sync>(
    rt: &'s R,
    alloc: Global,
    scope: &Scope<'s, E>,
    gate: &'s OnceLock<Signal>,
    members: Vec<W>,
) -> Option<Vec<Hand<W>>>
where
    W::Done: Send + Drop + 's,
    ensures { IfSome result (λ hands. map (λ h. h.promise.0.value) hands.items ≡ members.items) }
{
    let mut hands = Vec::new(alloc);
    for member in members {
        let made_for = MadeFor(Snapshot::of(&member));
        let hand = scope
            .spawn_with(made_for, move || stand_by(rt, gate, member))
            .ok()?;
        hands.push(hand).ok()?;
    }
    Some(hands)
}

/// What a thread does: it waits at the gate, and its member goes or is given back.
fn stand_by<W: Activity, R: Wait>(rt: &R, gate: &OnceLock<Signal>, member: W) -> Result<W::Done, W>
    ensures { MatchResult result (λ done. W.may_give member done) (λ back. back ≡ member) }
{
    match gate.wait(rt) {
        Signal::Begin => Ok(member.go()),
        Signal::Leave => Err(member),
    }
}

/// What the members came to, in their order. There is room for it.
#[tactic(auto, using(crate::proofs::Crews::joined_none, crate::proofs::Crews::joined_more, crate::proofs::Crews::joined_all))]
fn join<W: Activity + Drop, R: Threads>(
    rt: &R,
    hands: Vec<Hand<W>>,
    mut dones: Vec<W::Done>,
) -> Vec<W::Done>
where
    W::Done: Drop,
    requires empty { dones.items ≡ [] }
    requires room { length hands.items ≤ vec_capacity dones }
    ensures { AllZip W.may_give (map (λ h. h.promise.0.value) hands.items) result.items }
{
    for hand in hands {
        let done = match hand.join(rt) {
            Ok(done) => done,
            // The gate is open, so that no member comes back. It stands here for the proof alone, to which a gate says nothing.
            Err(member) => member.go(),
        };
        dones.push_reserved(done);
    }
    dones
}
