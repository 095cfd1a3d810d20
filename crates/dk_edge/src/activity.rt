//! What is done once, mostly on a thread of its own.

/// Something that is done once. It owns what it alone uses, and is lent what it shares.
pub trait Activity {
    type Done;

    /// What `go` may give.
    ghost may_give: { Self → Self.Done → Type 0 };

    fn go(self) -> Self::Done
        ensures { may_give self result };
}
