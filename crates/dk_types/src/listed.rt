//! A list inside a public value.
ghost use Rattle.std.specs.Prelude.{◌≡◌};
ghost use Rattle.std.specs.List.{AllZip};
ghost use Rattle.std.specs.Cmp.Lexicographic.{pointwise, lists_per, lists_equiv};

use std::alloc::AllocError;
use std::marker::Model;

/// A list, seen by contracts as the list of what it holds. It is made from a `Vec` and given back as one, with no copy.
#[derive(Debug, Drop)]
pub struct Listed<T> {
    items: Vec<T>,
}

impl<T> Model for Listed<T> {
    ghost use Rattle.std.specs.Prelude.{List};

    ghost Value = { List T };

    ghost view = { λ l. l.items.items };
}

impl<T> Listed<T> {
    /// The list of these items. Takes no memory.
    pub fn from_vec(items: Vec<T>) -> Listed<T>
        ensures { result ≡ items.items }
    {
        Listed { items }
    }

    /// The items, given away. Takes no memory.
    pub fn into_vec(self) -> Vec<T>
        ensures { result.items ≡ self }
    {
        let Listed { items } = self;
        items
    }

    /// The items.
    pub fn as_slice(&self) -> &[T]
        ensures { result.now ≡ self.now }
    {
        self.items.as_slice()
    }
}

impl<T: Clone> Clone for Listed<T> {
    ghost is_clone = { AllZip T.is_clone };

    fn clone(&self) -> Result<Listed<T>, AllocError> {
        let items = self.items.clone()?;
        Ok(Listed { items })
    }
}

impl<T: PartialEq> PartialEq for Listed<T> {
    ghost eq = { pointwise T.eq };

    ghost laws = { lists_per T.laws };

    fn eq(&self, other: &Listed<T>) -> bool {
        self.items == other.items
    }
}

impl<T: Eq> Eq for Listed<T> {
    ghost laws = { lists_equiv T.Eq.laws };
}
