//! Names of players, channels and bound objects.
ghost use Rattle.std.specs.Prelude.{◌≡◌, ◌<◌, ◌≤◌, ◌++◌, [], length, refl, nat_eq, Some, MatchOption, IfOk, IfErr};
ghost use Rattle.std.specs.Str.Lossy.{utf8_valid_len};
ghost use Rattle.dk_types.specs.Names.{IsName, bytes_cmp};
ghost use Rattle.dk_types.specs.NameFaults.{IsNameFault};
ghost use Rattle.std.specs.Cmp.Lexicographic.{pointwise, nat_list_eq_equiv, nat_list_cmp_total, texts_ties, texts_po};
ghost use Rattle.std.specs.Cmp;

use crate::blob::Blob;
use crate::fault::NoMemory;
use crate::limits::NAME_MOST_BYTES;
use std::alloc::{AllocError, Global};
use std::cmp::Ordering;
use std::marker::Model;
use thiserror::Error;

/// A name: 1 to 255 bytes of UTF-8, ordered by its bytes.
#[derive(Debug, Drop)]
pub struct Name {
    bytes: Blob,
}

impl Model for Name {
    ghost use Rattle.std.specs.Prelude.{ℕ, List};
    ghost use Rattle.dk_types.specs.Names.{IsName};

    ghost Value = { List ℕ };

    ghost view = { λ n. n.bytes };

    ghost invariant = { λ n. IsName n.bytes };
}

/// Why bytes are no name. The first cause in this order is told.
#[derive(Clone, Copy, Debug, PartialEq, Eq, Error)]
pub enum NameRefused {
    /// No bytes.
    #[error("a name has no bytes")]
    Empty,
    /// More than 255 bytes; `len` is how many.
    #[error("a name has {len} bytes, more than 255")]
    TooLong { len: u64 },
    /// Not UTF-8; `at` is the length of the longest prefix that is.
    #[error("a name is not UTF-8, at byte {at}")]
    NotUtf8 { at: u64 },
    #[error("out of memory")]
    NoMemory,
}

impl From<NoMemory> for NameRefused {
    ghost use Rattle.dk_types.specs.declared.name.NameRefused.TheVariants as refused;

    ghost from_gives = { λ _ e. e ≡ refused.NoMemory };

    fn from(_: NoMemory) -> NameRefused {
        NameRefused::NoMemory
    }
}

impl Name {
    /// The name of these bytes.
    pub fn new(alloc: Global, bytes: &[u8]) -> Result<Name, NameRefused>
        ensures ok { IfOk result (λ name. (name ≡ bytes.now) × IsName bytes.now) }
        ensures refused { IfErr result (IsNameFault bytes.now) }
    {
        if bytes.is_empty() {
            return Err(NameRefused::Empty);
        }
        if bytes.len() as u64 > NAME_MOST_BYTES {
            return Err(NameRefused::TooLong {
                len: bytes.len() as u64,
            });
        }
        match std::str::from_utf8(bytes) {
            Ok(text) => Ok(Name::from_text(alloc, text)?),
            Err(e) => Err(NameRefused::NotUtf8 {
                at: e.valid_up_to() as u64,
            }),
        }
    }

    /// The name of a text that is neither empty nor too long.
    pub fn from_text(alloc: Global, text: &str) -> Result<Name, NoMemory>
        requires some { 0 < length text.now }
        requires most { length text.now ≤ NAME_MOST_BYTES }
        ensures { IfOk result (λ name. (name ≡ text.now) × IsName text.now) }
    {
        let bytes = Blob::copy_of(alloc, text.as_bytes())?;
        Ok(Name { bytes })
    }

    /// The bytes, 1 to 255 of them.
    pub fn as_slice(&self) -> &[u8]
        ensures value { result.now ≡ self.now }
        ensures name { IsName self.now }
    {
        self.bytes.as_slice()
    }

    /// The name as text.
    pub fn as_str(&self) -> &str
        ensures value { result.now ≡ self.now }
        ensures name { IsName self.now }
    {
        match std::str::from_utf8(self.as_slice()) {
            Ok(text) => text,
            Err(_) => unreachable!(),
        }
    }

    /// The name that the prefix makes of this one; none where it would pass 255 bytes.
    pub fn with_prefix(&self, alloc: Global, prefix: &str) -> Result<Option<Name>, NoMemory>
        ensures { IfOk result (λ made. MatchOption made (NAME_MOST_BYTES < length (prefix.now ++ self.now)) (λ name. (name ≡ prefix.now ++ self.now) × (length (prefix.now ++ self.now) ≤ NAME_MOST_BYTES))) }
    {
        let mut text = String::from_str(alloc, prefix)?;
        text.push_str(self.as_str())?;
        if text.len() as u64 > NAME_MOST_BYTES {
            return Ok(None);
        }
        Ok(Some(Name::from_text(alloc, text.as_str())?))
    }
}

impl Clone for Name {
    ghost is_clone = { λ old new. new ≡ old };

    fn clone(&self) -> Result<Name, AllocError> {
        let bytes = self.bytes.clone()?;
        Ok(Name { bytes })
    }
}

impl PartialEq for Name {
    ghost eq = { pointwise nat_eq };

    ghost laws = { Cmp.partial_equiv_from_equiv nat_list_eq_equiv };

    fn eq(&self, other: &Name) -> bool {
        self.bytes == other.bytes
    }
}

impl Eq for Name {
    ghost laws = { nat_list_eq_equiv };
}

impl PartialOrd for Name {
    ghost partial_cmp = { λ x y. Some (bytes_cmp x y) };

    ghost laws = { texts_po };

    fn partial_cmp(&self, other: &Name) -> Option<Ordering> {
        Some(self.cmp(other))
    }
}

impl Ord for Name {
    ghost cmp = { bytes_cmp };

    ghost total = { nat_list_cmp_total };

    ghost matches_partial_cmp = { λ x y. refl };

    ghost matches_eq = { texts_ties };

    // Byte by byte: a name is short, and a comparison of slices begins with strides that are longer than most names.
    fn cmp(&self, other: &Name) -> Ordering {
        self.as_slice().iter().cmp(other.as_slice().iter())
    }
}
