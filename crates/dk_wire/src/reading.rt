//! How each kind of field is taken.
ghost use Rattle.std.specs.Prelude.{◌≡◌, ◌≢◌, ◌+◌, ◌<◌, ◌≤◌, ◌^◌, ℕ, length, take, drop, slice_index, Ok, Err, IfOk, IfErr};
ghost use Rattle.dk_types.specs.Rest.{Rest, IsBytes, moved};
ghost use Rattle.dk_types.specs.Reading.{Reads, Refuses, bytes_at, text_of, u8_at, u16_at, u32_at, u64_at, name_at, blob_at, id_at};

use crate::reader::Reader;
use byteorder::{BigEndian, ByteOrder};
use dk_types::limits::NUMBERS_END;
use dk_types::{Blob, Name, NameRefused, ObjectId, RunNo, WireRefused};
use std::alloc::Global;

impl<'a> Reader<'a> {
    #[tactic(auto, unfolding(dk_types::specs::Reading::u8_at))]
    pub(crate) fn read_u8(&mut self) -> Result<u8, WireRefused>
        ensures reads { Reads u8_at self.old result self.new }
        ensures bytes { IsBytes self.old.bytes }
        ensures memory { IfErr result (λ e. e ≢ WireRefused.NoMemory) }
    {
        let front = self.take_bytes(1)?;
        Ok(front[0])
    }

    #[tactic(auto, unfolding(dk_types::specs::Reading::u16_at))]
    pub(crate) fn read_u16(&mut self) -> Result<u16, WireRefused>
        ensures reads { Reads u16_at self.old result self.new }
        ensures bytes { IsBytes self.old.bytes }
        ensures memory { IfErr result (λ e. e ≢ WireRefused.NoMemory) }
    {
        let front = self.take_bytes(2)?;
        Ok(BigEndian::read_u16(front))
    }

    #[tactic(auto, unfolding(dk_types::specs::Reading::u32_at))]
    pub(crate) fn read_u32(&mut self) -> Result<u32, WireRefused>
        ensures reads { Reads u32_at self.old result self.new }
        ensures bytes { IsBytes self.old.bytes }
        ensures memory { IfErr result (λ e. e ≢ WireRefused.NoMemory) }
    {
        let front = self.take_bytes(4)?;
        Ok(BigEndian::read_u32(front))
    }

    #[tactic(auto, unfolding(dk_types::specs::Reading::u64_at))]
    pub(crate) fn read_u64(&mut self) -> Result<u64, WireRefused>
        ensures reads { Reads u64_at self.old result self.new }
        ensures bytes { IsBytes self.old.bytes }
        ensures memory { IfErr result (λ e. e ≢ WireRefused.NoMemory) }
    {
        let front = self.take_bytes(8)?;
        Ok(BigEndian::read_u64(front))
    }

    /// The name at the front: a length byte from 1 on, and that many bytes of UTF-8.
    #[tactic(auto, unfolding(dk_types::specs::Reading::name_at))]
    pub(crate) fn read_name(&mut self, alloc: Global) -> Result<Name, WireRefused>
        ensures reads { Reads name_at self.old result self.new }
        ensures bytes { IsBytes self.old.bytes }
    {
        let mut ahead = self.copy();
        let len = ahead.read_u8()?;
        if len == 0 {
            return Err(WireRefused::BadTag {
                at: self.at,
                tag: 0,
            });
        }
        let at = ahead.at;
        let name = name_of(alloc, ahead.take_bytes(len as usize)?, at)?;
        *self = ahead;
        Ok(name)
    }

    /// The blob at the front, of at most `most` bytes.
    #[tactic(auto, unfolding(dk_types::specs::Reading::blob_at))]
    pub(crate) fn read_blob(&mut self, alloc: Global, most: u32) -> Result<Blob, WireRefused>
        ensures reads { Reads (blob_at most) self.old result self.new }
        ensures bytes { IsBytes self.old.bytes }
    {
        let mut ahead = self.copy();
        let len = ahead.read_u32()?;
        if len > most {
            return Err(WireRefused::TooLong);
        }
        let Ok(blob) = Blob::copy_of(alloc, ahead.take_bytes(len as usize)?) else {
            return Err(WireRefused::NoMemory);
        };
        *self = ahead;
        Ok(blob)
    }

    /// The id at the front, one number of twelve bytes.
    #[tactic(auto, unfolding(dk_types::specs::Reading::id_at))]
    pub(crate) fn read_id(&mut self) -> Result<ObjectId, WireRefused>
        ensures reads { Reads id_at self.old result self.new }
        ensures bytes { IsBytes self.old.bytes }
        ensures memory { IfErr result (λ e. e ≢ WireRefused.NoMemory) }
    {
        let mut ahead = self.copy();
        let front = ahead.take_bytes(12)?;
        let run = BigEndian::read_u64(front);
        if run >= NUMBERS_END {
            return Err(WireRefused::BadTag {
                at: self.at,
                tag: front[0],
            });
        }
        let k = BigEndian::read_u32(&front[8..]);
        *self = ahead;
        Ok(ObjectId { run: RunNo(run), k })
    }

    /// Another reader that stands where this one stands.
    pub fn copy(&self) -> Reader<'a>
        ensures { result ≡ self.now }
    {
        Reader {
            rest: self.rest,
            at: self.at,
        }
    }

    fn take_bytes(&mut self, need: usize) -> Result<&'a [u8], WireRefused>
        ensures ok { IfOk result (λ front. bytes_at need self.old ≡ Ok (front.now, self.new)) }
        ensures refused { IfErr result (λ e. (self.new ≡ self.old) × (bytes_at need self.old ≡ Err e)) }
        ensures bytes { IsBytes self.old.bytes }
        ensures memory { IfErr result (λ e. e ≢ WireRefused.NoMemory) }
    {
        let (front, rest) = part(self.rest, need)?;
        self.rest = rest;
        self.at += need as u64;
        Ok(front)
    }
}

// The first bytes, this many of them, and those behind.
fn part(bytes: &[u8], need: usize) -> Result<(&[u8], &[u8]), WireRefused>
    ensures parts { IfOk result (λ p. (need ≤ length bytes.now) × (p.0.now ≡ take need bytes.now) × (p.1.now ≡ drop need bytes.now)) }
    ensures refused { IfErr result (λ e. (length bytes.now < need) × (e ≡ WireRefused.Short need (length bytes.now))) }
    ensures bytes { IsBytes bytes.now }
{
    if bytes.len() < need {
        return Err(WireRefused::Short {
            need: need as u64,
            have: bytes.len() as u64,
        });
    }
    Ok(bytes.split_at(need))
}

// The name of bytes that stand at this place.
fn name_of(alloc: Global, bytes: &[u8], at: u64) -> Result<Name, WireRefused>
    requires some { 0 < length bytes.now }
    requires most { length bytes.now ≤ 255 }
    requires place { at + length bytes.now < 2 ^ 64 }
    ensures ok { IfOk result (λ name. (behind : Rest) → text_of bytes.now at behind ≡ Ok (name, behind)) }
    ensures refused { IfErr result (λ e. (behind : Rest) → Refuses e (text_of bytes.now at behind)) }
{
    match Name::new(alloc, bytes) {
        Ok(name) => Ok(name),
        Err(NameRefused::NotUtf8 { at: valid }) => Err(WireRefused::BadTag {
            at: at + valid,
            tag: bytes[valid as usize],
        }),
        Err(NameRefused::NoMemory) => Err(WireRefused::NoMemory),
        Err(NameRefused::Empty | NameRefused::TooLong { .. }) => unreachable!(),
    }
}
