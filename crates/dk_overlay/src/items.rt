//! Items, told apart.
ghost use Rattle.std.specs.Prelude.{◌≡◌};
ghost use Rattle.dk_overlay.specs.Items.{same_after, equal_items};

use dk_types::{Item, Name};

fn is_same_after(a: &Option<Name>, b: &Option<Name>) -> bool
    ensures { result ≡ same_after a.now b.now }
{
    match (a, b) {
        (None, None) => true,
        (Some(a), Some(b)) => a == b,
        (None, Some(_)) | (Some(_), None) => false,
    }
}

/// Whether two items are one.
pub fn is_same_item(a: &Item, b: &Item) -> bool
    ensures { result ≡ equal_items a.now b.now }
{
    match (a, b) {
        (Item::Object(a), Item::Object(b)) => a == b,
        (Item::Bound(a), Item::Bound(b)) => a == b,
        (Item::NextAfter(a), Item::NextAfter(b)) => is_same_after(a, b),
        (Item::Task(a), Item::Task(b)) => a == b,
        _ => false,
    }
}
