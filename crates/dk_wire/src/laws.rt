//! Laws of the fields. Each is the contract of a function that does nothing.
ghost use Rattle.std.specs.Prelude.{◌≡◌, ◌<◌, ◌^◌, ℕ, List, length};
ghost use Rattle.std.specs.Int.{w16, w32, w64, from_be_bytes, to_be_bytes};
ghost use Rattle.byteorder.specs.Endian.{big_bytes, big_number};
ghost use Rattle.dk_types.specs.Names.{IsName};
ghost use Rattle.dk_types.specs.declared.number.ObjectId.{ObjectId};
ghost use Rattle.dk_types.specs.declared.number.TaskKey.{TaskKey};
ghost use Rattle.dk_types.specs.Fields.{IsU8, IsU16, IsU32, IsU64, IsBlob, IsId, IsKey, u8_spelling, u16_spelling, u32_spelling, u64_spelling, name_spelling, blob_spelling, id_spelling, key_spelling};
ghost use Rattle.dk_types.specs.Reading.{u8_at, u16_at, u32_at, u64_at, name_at, blob_at, id_at};
ghost use Rattle.dk_types.specs.Payload.{next_u8, next_u16, next_u32, next_u64, next_name, next_blob, next_id, next_key};
ghost use Rattle.dk_types.specs.Exact.{IsExact, IsPrefixFree};
ghost use Rattle.dk_types.specs.Lists.{IsList, list_spelling, list_at};
ghost use Rattle.dk_wire.specs.Lengths.{name_length, blob_length, list_length};

use crate::form::Form;

/// The numbers of `byteorder` are std's: it writes `to_be_bytes`, and `from_be_bytes` gives the number again.
pub fn numbers_are_big_endian()
    ensures u16 { (n : ℕ) → n < 2 ^ 16 → (big_bytes 2 n ≡ to_be_bytes w16 n) × (from_be_bytes w16 (big_bytes 2 n) ≡ n) }
    ensures u32 { (n : ℕ) → n < 2 ^ 32 → (big_bytes 4 n ≡ to_be_bytes w32 n) × (from_be_bytes w32 (big_bytes 4 n) ≡ n) }
    ensures u64 { (n : ℕ) → n < 2 ^ 64 → (big_bytes 8 n ≡ to_be_bytes w64 n) × (from_be_bytes w64 (big_bytes 8 n) ≡ n) }
{}

/// What `byteorder` reads is what std's `from_be_bytes` gives.
pub fn bytes_are_read_high_first()
    ensures u16 { (bytes : List ℕ) → big_number 2 bytes ≡ from_be_bytes w16 bytes }
    ensures u32 { (bytes : List ℕ) → big_number 4 bytes ≡ from_be_bytes w32 bytes }
    ensures u64 { (bytes : List ℕ) → big_number 8 bytes ≡ from_be_bytes w64 bytes }
{}

/// What was put is taken again, whatever follows it, and what is taken was put so.
pub fn fields_are_exact()
    ensures u8 { IsExact IsU8 u8_spelling u8_at }
    ensures u16 { IsExact IsU16 u16_spelling u16_at }
    ensures u32 { IsExact IsU32 u32_spelling u32_at }
    ensures u64 { IsExact IsU64 u64_spelling u64_at }
    ensures name { IsExact IsName name_spelling name_at }
    ensures blob { (most : ℕ) → most < 2 ^ 32 → IsExact (IsBlob most) blob_spelling (blob_at most) }
    ensures id { IsExact IsId id_spelling id_at }
{}

/// The same for the fields of a payload, whose faults are places.
pub fn payload_fields_are_exact()
    ensures u8 { IsExact IsU8 u8_spelling next_u8 }
    ensures u16 { IsExact IsU16 u16_spelling next_u16 }
    ensures u32 { IsExact IsU32 u32_spelling next_u32 }
    ensures u64 { IsExact IsU64 u64_spelling next_u64 }
    ensures name { IsExact IsName name_spelling next_name }
    ensures blob { (most : ℕ) → most < 2 ^ 32 → IsExact (IsBlob most) blob_spelling (next_blob most) }
    ensures id { IsExact IsId id_spelling next_id }
    ensures key { IsExact IsKey key_spelling next_key }
{}

/// Each value has a spelling of its own, and no spelling begins another.
pub fn no_spelling_begins_another()
    ensures u8 { IsPrefixFree IsU8 u8_spelling }
    ensures u16 { IsPrefixFree IsU16 u16_spelling }
    ensures u32 { IsPrefixFree IsU32 u32_spelling }
    ensures u64 { IsPrefixFree IsU64 u64_spelling }
    ensures name { IsPrefixFree IsName name_spelling }
    ensures blob { IsPrefixFree (λ (b : List ℕ). length b < 2 ^ 32) blob_spelling }
    ensures id { IsPrefixFree IsId id_spelling }
    ensures key { IsPrefixFree IsKey key_spelling }
{}

/// A counted list of a form's items is exact where the form is.
pub fn lists_are_exact<T, F: Form<T>>()
    ensures { IsExact (IsList F.fits) (list_spelling F.spelling) (list_at F.reading) }
{}

/// The lengths of spellings.
pub fn lengths_of_spellings()
    ensures u8 { (n : ℕ) → length (u8_spelling n) ≡ 1 }
    ensures u16 { (n : ℕ) → length (u16_spelling n) ≡ 2 }
    ensures u32 { (n : ℕ) → length (u32_spelling n) ≡ 4 }
    ensures u64 { (n : ℕ) → length (u64_spelling n) ≡ 8 }
    ensures name { (name : List ℕ) → length (name_spelling name) ≡ name_length name }
    ensures blob { (blob : List ℕ) → length (blob_spelling blob) ≡ blob_length blob }
    ensures id { (id : ObjectId) → length (id_spelling id) ≡ 12 }
    ensures key { (key : TaskKey) → length (key_spelling key) ≡ 12 }
{}

/// The length of a list's spelling.
pub fn length_of_a_list<T, F: Form<T>>()
    ensures { (xs : List T) → length (list_spelling F.spelling xs) ≡ list_length (λ x. length (F.spelling x)) xs }
{}
