//! The body of a client's message.
ghost use Rattle.std.specs.Prelude.{◌≡◌, [], ◌++◌, nat_eq, IfOk, OnOk, OnErr};
ghost use Rattle.std.specs.Cmp.Lexicographic.{pointwise, nat_list_eq_equiv};
ghost use Rattle.std.specs.Cmp;

use dk_types::{Blob, NoMemory};
use smallvec::SmallVec;
use std::alloc::{AllocError, Global};
use std::marker::Model;

/// The bytes of a message, seen by contracts as a list. Up to 64 of them stand in the value itself, as most messages of
/// players have no more, and take no memory of their own.
#[derive(Debug)]
pub struct Body {
    bytes: SmallVec<u8, 64>,
}

impl Drop for Body {
    fn drop(self) {
        let Body { bytes: _ } = self;
    }
}

impl Model for Body {
    ghost use Rattle.std.specs.Prelude.{ℕ, List};

    ghost Value = { List ℕ };

    ghost view = { λ b. b.bytes.items };
}

impl Body {
    /// No bytes.
    pub(crate) fn new(alloc: Global) -> Body
        ensures { result ≡ [] }
    {
        Body {
            bytes: SmallVec::new(alloc),
        }
    }

    /// A copy of the bytes.
    pub(crate) fn copy_of(alloc: Global, bytes: &[u8]) -> Result<Body, NoMemory>
        ensures { IfOk result (λ body. body ≡ bytes.now) }
    {
        Ok(Body {
            bytes: SmallVec::from_slice(alloc, bytes)?,
        })
    }

    /// Appends bytes. The first take no more memory than they need.
    pub(crate) fn extend_from_slice(&mut self, more: &[u8]) -> Result<(), NoMemory>
        ensures ok { OnOk result (self.new ≡ self.old ++ more.now) }
        ensures err { OnErr result (self.new ≡ self.old) }
    {
        if self.bytes.is_empty() {
            self.bytes.reserve_exact(more.len())?;
        }
        self.bytes.extend_from_slice(more)?;
        Ok(())
    }

    /// The bytes.
    pub fn as_slice(&self) -> &[u8]
        ensures { result.now ≡ self.now }
    {
        self.bytes.as_slice()
    }

    /// The bytes as a `Blob`. Memory is taken for those alone that stand in the value itself and are too many to stand so in the
    /// blob's.
    pub fn into_blob(self) -> Result<Blob, NoMemory>
        ensures { IfOk result (λ blob. blob ≡ self) }
    {
        let Body { bytes } = self;
        if bytes.spilled() {
            return Ok(Blob::from_vec(bytes.into_vec()?));
        }
        Blob::copy_of(*bytes.allocator(), bytes.as_slice())
    }
}

impl Clone for Body {
    ghost is_clone = { λ old new. new ≡ old };

    fn clone(&self) -> Result<Body, AllocError> {
        let bytes = SmallVec::from_slice(*self.bytes.allocator(), self.as_slice())?;
        Ok(Body { bytes })
    }
}

impl PartialEq for Body {
    ghost eq = { pointwise nat_eq };

    ghost laws = { Cmp.partial_equiv_from_equiv nat_list_eq_equiv };

    fn eq(&self, other: &Body) -> bool {
        self.as_slice() == other.as_slice()
    }
}

impl Eq for Body {
    ghost laws = { nat_list_eq_equiv };
}
