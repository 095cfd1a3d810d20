//! Taking fields from the front.
ghost use Rattle.std.specs.Prelude.{◌≡◌, ◌≢◌, IfErr, ◌<◌, ◌^◌};
ghost use Rattle.dk_types.specs.Names.{IsName};
ghost use Rattle.dk_types.specs.Rest.{Rest, IsBytes};
ghost use Rattle.dk_types.specs.Fields.{IsU8, IsU16, IsU32, IsU64, IsBlob, IsId, u8_spelling, u16_spelling, u32_spelling, u64_spelling, name_spelling, blob_spelling, id_spelling};
ghost use Rattle.dk_types.specs.Reading.{Reads, u8_at, u16_at, u32_at, u64_at, name_at, blob_at, id_at, end_at};
ghost use Rattle.dk_types.specs.Exact.{TakesFront};

use dk_types::{Blob, Name, ObjectId, WireRefused};
use std::alloc::Global;
use std::marker::Model;

/// Takes fields from the front of bytes. After a refusal it stands where it stood.
#[derive(Debug, Drop)]
pub struct Reader<'a> {
    pub(crate) rest: &'a [u8],
    pub(crate) at: u64,
}

impl<'a> Model for Reader<'a> {
    ghost use Rattle.std.specs.Prelude.{◌+◌, ◌<◌, ◌^◌, length};
    ghost use Rattle.dk_types.specs.Rest.{Rest};

    ghost Value = { Rest };

    ghost view = { λ r. record { at = r.at; bytes = r.rest.now } };

    ghost invariant = { λ r. r.at + length r.rest.now < 2 ^ 64 };
}

impl<'a> Reader<'a> {
    /// A reader of these bytes that has taken none.
    pub fn new(bytes: &'a [u8]) -> Reader<'a>
        ensures rest { result ≡ record { at = 0; bytes = bytes.now } }
        ensures bytes { IsBytes bytes.now }
    {
        Reader { rest: bytes, at: 0 }
    }

    /// How many bytes were taken.
    pub fn at(&self) -> u64
        ensures { result ≡ self.now.at }
    {
        self.at
    }

    /// Refuses where bytes are left.
    #[tactic(auto, unfolding(dk_types::specs::Reading::end_at))]
    pub fn end(&self) -> Result<(), WireRefused>
        ensures { result ≡ end_at self.now }
    {
        if self.rest.is_empty() {
            Ok(())
        } else {
            Err(WireRefused::Extra { at: self.at })
        }
    }

    /// The byte at the front.
    pub fn take_u8(&mut self) -> Result<u8, WireRefused>
        ensures reads { Reads u8_at self.old result self.new }
        ensures front { TakesFront IsU8 u8_spelling self.old result self.new }
        ensures memory { IfErr result (λ e. e ≢ WireRefused.NoMemory) }
    {
        self.read_u8()
    }

    /// The number at the front, of two bytes, the highest first.
    pub fn take_u16(&mut self) -> Result<u16, WireRefused>
        ensures reads { Reads u16_at self.old result self.new }
        ensures front { TakesFront IsU16 u16_spelling self.old result self.new }
        ensures memory { IfErr result (λ e. e ≢ WireRefused.NoMemory) }
    {
        self.read_u16()
    }

    /// The number at the front, of four bytes, the highest first.
    pub fn take_u32(&mut self) -> Result<u32, WireRefused>
        ensures reads { Reads u32_at self.old result self.new }
        ensures front { TakesFront IsU32 u32_spelling self.old result self.new }
        ensures memory { IfErr result (λ e. e ≢ WireRefused.NoMemory) }
    {
        self.read_u32()
    }

    /// The number at the front, of eight bytes, the highest first.
    pub fn take_u64(&mut self) -> Result<u64, WireRefused>
        ensures reads { Reads u64_at self.old result self.new }
        ensures front { TakesFront IsU64 u64_spelling self.old result self.new }
        ensures memory { IfErr result (λ e. e ≢ WireRefused.NoMemory) }
    {
        self.read_u64()
    }

    /// The name at the front: a length byte from 1 on, and that many bytes of UTF-8.
    pub fn take_name(&mut self, alloc: Global) -> Result<Name, WireRefused>
        ensures reads { Reads name_at self.old result self.new }
        ensures front { TakesFront IsName name_spelling self.old result self.new }
    {
        self.read_name(alloc)
    }

    /// The blob at the front, of at most `most` bytes: a length of four bytes, and that many bytes.
    pub fn take_blob(&mut self, alloc: Global, most: u32) -> Result<Blob, WireRefused>
        ensures reads { Reads (blob_at most) self.old result self.new }
        ensures front { TakesFront (IsBlob most) blob_spelling self.old result self.new }
    {
        self.read_blob(alloc, most)
    }

    /// The id at the front, one number of twelve bytes.
    pub fn take_id(&mut self) -> Result<ObjectId, WireRefused>
        ensures reads { Reads id_at self.old result self.new }
        ensures front { TakesFront IsId id_spelling self.old result self.new }
        ensures memory { IfErr result (λ e. e ≢ WireRefused.NoMemory) }
    {
        self.read_id()
    }
}
