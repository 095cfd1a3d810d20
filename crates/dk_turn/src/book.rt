//! What the lock's value has to say of itself, and what a call does to it.
ghost use Rattle.std.specs.Prelude.{◌≡◌, ℕ, List, ◌++◌};
ghost use Rattle.std.specs.List.{All};

/// A value that stands for a history. It need not keep the history in memory (`GhostList`).
pub trait Book {
    type Entry;

    // The history that the value stands for, oldest entry first.
    ghost history: { Self → List Self.Entry };

    // The number of the pass that entered this entry.
    ghost number: { Self.Entry → ℕ };
}

/// What a call does to the value, once it has its turn. It is moved into `apply`, so it is applied at most once.
pub trait Step<O: Book> {
    type Reply;

    // Whether a pass may apply it where the value stands for this history.
    ghost may: { Self → ℕ → List O.Entry → Type 0 };

    // Which reply it may give there, and which further entries.
    ghost gives: { Self → ℕ → List O.Entry → Self.Reply → List O.Entry → Type 0 };

    /// Adds no entry or more to the end of the history, each with the number `pass`. The lock is held meanwhile.
    fn apply(self, pass: u32, book: &mut O) -> Self::Reply
        requires { may self pass (O.history book.old) }
        ensures { (added : List O.Entry)
            × (O.history book.new ≡ O.history book.old ++ added)
            × All (λ e. O.number e ≡ pass) added
            × gives self pass (O.history book.old) result added };

    /// Whether those who wait (`Turn::wait`) are to look again after this reply. Without an `impl` of it they always are.
    fn wakes(reply: &Self::Reply) -> bool {
        let _ = reply;
        true
    }
}
