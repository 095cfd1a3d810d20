//! A row whose elements are served beside one another, each once and in a thread of its own.
ghost use Rattle.std.specs.Prelude.{◌≡◌, ◌<◌, [], ◌∷◌, ◌++◌, length};
ghost use Rattle.std.specs.Thread.{IsSend, IsSync};
ghost use Rattle.dk_workers.specs.Rows.{IsServed, first_of};

use crate::worked::Worked;
use std::thread::{Threads, join_mut};

/// Who serves the elements of a row.
pub(crate) trait Server<X> {
    ghost use Rattle.dk_workers.specs.declared.worked.Worked.{Worked};

    // What it asks for.
    ghost ready: { Self → Type 0 };

    // What it does to an element, with this answer.
    ghost serves: { Self → X → Worked → X → Type 0 };

    /// Serves an element, which has this number.
    fn serve(&self, number: u32, element: &mut X) -> Worked
        requires { ready self.now }
        ensures { serves self.now element.old result element.new };
}

/// Serves each element once, by joined threads; the first one has the number 0, the next 1, and so on.
pub(crate) fn serve_all<X: Send, S: Server<X> + Sync, R: Threads + Sync>(
    rt: &R,
    server: &S,
    elements: &mut [X],
) -> Worked
    requires ready { S.ready server.now }
    ensures served { IsServed (S.serves server.now) result elements.old elements.new }
{
    serve_from(rt, server, 0, elements)
}

// The row is halved at each step, and one half goes to a new thread.
#[cycle(halves)]
fn serve_from<X: Send, S: Server<X> + Sync, R: Threads + Sync>(
    rt: &R,
    server: &S,
    first: u32,
    elements: &mut [X],
) -> Worked
    requires ready { S.ready server.now }
    ensures served { IsServed (S.serves server.now) result elements.old elements.new }
{
    if elements.is_empty() {
        return Worked::Idle;
    }
    if elements.len() == 1 {
        return server.serve(first, &mut elements[0]);
    }
    let (front, back) = elements.split_at_mut(elements.len() / 2);
    let next = numbered(first, front.len());
    serve_halves(rt, server, first, front, next, back)
}

// Each half has the number of its first element.
#[cycle(halves)]
fn serve_halves<X: Send, S: Server<X> + Sync, R: Threads + Sync>(
    rt: &R,
    server: &S,
    first: u32,
    front: &mut [X],
    next: u32,
    back: &mut [X],
) -> Worked
    requires ready { S.ready server.now }
    requires some { (0 < length front.old) × (0 < length back.old) }
    ensures served { IsServed (S.serves server.now) result (front.old ++ back.old) (front.new ++ back.new) }
{
    let mut one = || -> Worked
        requires { IsSync R.row × IsSync S.row × IsSend X.row × S.ready server.now }
        ensures { IsServed (S.serves server.entry.now) result front.entry.now front.exit.now }
    { serve_from(rt, server, first, front) };
    let mut other = || -> Worked
        requires { IsSync R.row × IsSync S.row × IsSend X.row × S.ready server.now }
        ensures { IsServed (S.serves server.entry.now) result back.entry.now back.exit.now }
    { serve_from(rt, server, next, back) };
    let (of_front, of_back) = join_mut(rt, &mut one, &mut other);
    first_end(of_front, of_back)
}

// The number that lies so many behind.
fn numbered(first: u32, behind: usize) -> u32 {
    match u32::try_from(behind) {
        Ok(behind) => first.saturating_add(behind),
        Err(_) => u32::MAX,
    }
}

// The first of two answers that is not Idle, or Idle.
fn first_end(one: Worked, other: Worked) -> Worked
    ensures { result ≡ first_of (one ∷ other ∷ []) }
{
    match one {
        Worked::Idle => other,
        _ => one,
    }
}
