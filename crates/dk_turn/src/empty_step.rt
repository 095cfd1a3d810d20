//! A step that does nothing.
use crate::book::{Book, Step};

/// Enters nothing. Its pass sees the history as it is, and those who wait look again.
#[derive(Drop)]
pub struct EmptyStep;

impl<O: Book> Step<O> for EmptyStep {
    ghost use Rattle.std.specs.Prelude.{◌≡◌, []};

    type Reply = ();

    ghost may = { λ _ _ _. Unit {0} };

    ghost gives = { λ _ _ _ _ added. added ≡ [] };

    fn apply(self, _pass: u32, _book: &mut O) {}
}
