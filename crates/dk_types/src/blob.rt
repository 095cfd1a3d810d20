//! Bytes: what an object holds, a task's argument, a message's body.
ghost use Rattle.std.specs.Prelude.{◌≡◌, nat_eq, IfOk};
ghost use Rattle.std.specs.Cmp.Lexicographic.{pointwise, nat_list_eq_equiv};
ghost use Rattle.std.specs.Cmp;
ghost use Rattle.dk_types.specs.Blobs.{items_of};

use crate::fault::NoMemory;
use arrayvec::ArrayVec;
use std::alloc::{AllocError, Global};
use std::marker::Model;
use std::sync::Arc;

/// So many bytes stand in a blob's value itself: then it is as large as with a `Vec`.
const INLINE_BYTES: usize = 16;

/// Where the bytes of a blob stand: in its value, in memory of its own, or with all that were cloned from it.
#[derive(Debug, Drop)]
enum Bytes {
    Inline(ArrayVec<u8, INLINE_BYTES>, Global),
    Own(Vec<u8>),
    Shared(Arc<Vec<u8>, Global>),
}

impl Bytes {
    // A copy, which takes memory only where it does not fit into the value.
    fn copy_of(alloc: Global, bytes: &[u8]) -> Result<Bytes, AllocError>
        ensures { IfOk result (λ copy. items_of copy ≡ bytes.now) }
    {
        let mut inline = ArrayVec::new();
        match inline.try_extend_from_slice(bytes) {
            Ok(()) => Ok(Bytes::Inline(inline, alloc)),
            Err(_) => Ok(Bytes::Own(Vec::from_slice(alloc, bytes)?)),
        }
    }

    // Those of a `Vec`: in the value where they fit, and else for clones to share.
    fn of_vec(alloc: Global, bytes: Vec<u8>) -> Result<Bytes, NoMemory>
        ensures { IfOk result (λ kept. items_of kept ≡ bytes.items) }
    {
        if bytes.len() <= INLINE_BYTES {
            return Ok(Bytes::copy_of(alloc, &bytes)?);
        }
        match Arc::new(alloc, bytes) {
            Ok(bytes) => Ok(Bytes::Shared(bytes)),
            Err(_) => Err(NoMemory),
        }
    }
}

/// Bytes, seen by contracts as a list.
#[derive(Debug)]
pub struct Blob {
    bytes: Bytes,
}

// Written out, so that a function which lets a blob go proves one call and not both ways of its bytes.
impl Drop for Blob {
    fn drop(self) {
        let Blob { bytes: _ } = self;
    }
}

impl Model for Blob {
    ghost use Rattle.std.specs.Prelude.{ℕ, List};
    ghost use Rattle.dk_types.specs.Blobs.{items_of};

    ghost Value = { List ℕ };

    ghost view = { λ b. items_of b.bytes };
}

impl Blob {
    /// The bytes of a `Vec`, taken over as they are.
    pub fn from_vec(bytes: Vec<u8>) -> Blob
        ensures { result ≡ bytes.items }
    {
        Blob {
            bytes: Bytes::Own(bytes),
        }
    }

    /// The `Vec` of the bytes, handed over as it is, or a copy where clones have the bytes too.
    pub fn into_vec(self) -> Result<Vec<u8>, NoMemory>
        ensures { IfOk result (λ bytes. bytes.items ≡ self) }
    {
        let Blob { bytes } = self;
        match bytes {
            Bytes::Inline(bytes, alloc) => Ok(Vec::from_slice(alloc, bytes.as_slice())?),
            Bytes::Own(bytes) => Ok(bytes),
            Bytes::Shared(bytes) => Ok(Arc::unwrap_or_clone(bytes)?),
        }
    }

    /// The same bytes, which a clone of it shares from then on and does not copy, but for up to 16 of them, which stand in the
    /// value itself.
    pub fn shared(self, alloc: Global) -> Result<Blob, NoMemory>
        ensures { IfOk result (λ blob. blob ≡ self) }
    {
        let Blob { bytes } = self;
        let bytes = match bytes {
            Bytes::Inline(bytes, alloc) => Bytes::Inline(bytes, alloc),
            Bytes::Own(bytes) => Bytes::of_vec(alloc, bytes)?,
            Bytes::Shared(bytes) => Bytes::Shared(bytes),
        };
        Ok(Blob { bytes })
    }

    /// A copy of the bytes. Up to 16 of them take no memory.
    pub fn copy_of(alloc: Global, bytes: &[u8]) -> Result<Blob, NoMemory>
        ensures { IfOk result (λ blob. blob ≡ bytes.now) }
    {
        Ok(Blob {
            bytes: Bytes::copy_of(alloc, bytes)?,
        })
    }

    /// The bytes.
    pub fn as_slice(&self) -> &[u8]
        ensures { result.now ≡ self.now }
    {
        match &self.bytes {
            Bytes::Inline(bytes, _) => bytes.as_slice(),
            Bytes::Own(bytes) => bytes.as_slice(),
            Bytes::Shared(bytes) => bytes.as_slice(),
        }
    }
}

impl Clone for Blob {
    ghost is_clone = { λ old new. new ≡ old };

    fn clone(&self) -> Result<Blob, AllocError> {
        let bytes = match &self.bytes {
            Bytes::Inline(bytes, alloc) => Bytes::copy_of(*alloc, bytes.as_slice())?,
            Bytes::Own(bytes) => Bytes::Own(bytes.clone()?),
            Bytes::Shared(bytes) => Bytes::Shared(bytes.clone()?),
        };
        Ok(Blob { bytes })
    }
}

impl PartialEq for Blob {
    ghost eq = { pointwise nat_eq };

    ghost laws = { Cmp.partial_equiv_from_equiv nat_list_eq_equiv };

    fn eq(&self, other: &Blob) -> bool {
        self.as_slice() == other.as_slice()
    }
}

impl Eq for Blob {
    ghost laws = { nat_list_eq_equiv };
}
