//! The calls that change a file, each run of them ended by a sync.
ghost use Rattle.std.specs.Prelude.{◌≡◌, ◌+◌, ◌<◌, ◌≤◌, ◌^◌, ◌↔◌, ℕ, List, [], ◌∷◌, ◌++◌, true, false, length, take, slice_index, IsOk, IfOk, OnOk, OnErr, IsTrue};
ghost use Rattle.dk_types.specs.Faults.{HasRisen};
ghost use Rattle.dk_types.specs.Fields.{u32_spelling};
ghost use Rattle.dk_disk.specs.Disk.{settled, overwritten, after_write};
ghost use Rattle.dk_disk.specs.Opening.{IsOpen};
ghost use Rattle.dk_disk.specs.DiskHistories.{now};
ghost use Rattle.dk_journal.specs.Moments.{Runs, Looks, IsFrontSafe, HasOrNot, NeverFalls, IsWriting, IsClearing, AreBlankOr, AreSameOrBlank};
ghost use Rattle.dk_model.specs.Stores.{is_blank};
ghost use Rattle.dk_journal.specs.Standing.{Stands, IsAtRest, IsReady, behind_gate};
ghost use Rattle.dk_journal.specs.declared.writing.TheConstants.{SHORT_RECORD_BYTES};

use crate::scan::byte_at;
use arrayvec::{ArrayVec, CapacityError};
use byteorder::{BigEndian, ByteOrder};
use dk_disk::Home;
use dk_types::{Failed, Side};

// The bytes of a record that is put together on the stack, at most: its length, its payload and the closed gate behind it.
const SHORT_RECORD_BYTES: usize = 512;

// A write behind bytes that are safe leaves them safe.
fn write<M: Home>(home: &mut M, side: Side, at: u64, bytes: &[u8]) -> Result<(), Failed>
    requires is_open { IsOpen (M.opening home.old) }
    requires no_gap { IsTrue M.tells → at ≤ length (now (M.past home.old) side).reads }
    ensures run { IsTrue M.tells → (front : List ℕ) → length front ≤ at → IsFrontSafe front (now (M.past home.old) side) → Runs side (IsFrontSafe front) (M.past home.old) (M.past home.new) }
    ensures written { IsTrue M.tells → OnOk result (now (M.past home.new) side ≡ after_write at bytes.now (now (M.past home.old) side)) }
    ensures opening { M.opening home.new ≡ M.opening home.old }
    ensures steady { OnOk result (M.counted home.new ≡ M.counted home.old) }
    ensures cause { OnErr result (HasRisen (M.counted home.old) (M.counted home.new)) }
{
    home.write_at(side, at, bytes)
}

// The length of a payload, as it stands before it.
fn length_field(payload: &[u8]) -> [u8; 4]
    requires { length payload.now < 2 ^ 32 }
    ensures { result ≡ u32_spelling (length payload.now) }
{
    let mut field = [0; 4];
    BigEndian::write_u32(&mut field, payload.len() as u32);
    field
}

// What is put behind the closed gate, where it is short: a length, a payload and a closed gate, on the stack.
fn short_record(payload: &[u8]) -> Result<ArrayVec<u8, SHORT_RECORD_BYTES>, CapacityError>
    requires { length payload.now < 2 ^ 32 }
    ensures variant { IsOk result ↔ (length payload.now + 5 ≤ SHORT_RECORD_BYTES) }
    ensures bytes { IfOk result (λ bytes. bytes.items ≡ behind_gate payload.now) }
{
    let mut record = ArrayVec::new();
    record.try_extend_from_slice(&length_field(payload))?;
    record.try_extend_from_slice(payload)?;
    record.try_extend_from_slice(&[0])?;
    Ok(record)
}

// Writes a length, a payload and a closed gate from this place on, each by itself.
fn write_parts<M: Home>(home: &mut M, side: Side, at: u64, payload: &[u8]) -> Result<(), Failed>
    requires is_open { IsOpen (M.opening home.old) }
    requires size { length payload.now < 2 ^ 32 }
    requires range { at ≤ 2 ^ 40 }
    requires no_gap { IsTrue M.tells → at ≤ length (now (M.past home.old) side).reads }
    ensures run { IsTrue M.tells → (front : List ℕ) → length front ≤ at → IsFrontSafe front (now (M.past home.old) side) → Runs side (IsFrontSafe front) (M.past home.old) (M.past home.new) }
    ensures written { IsTrue M.tells → OnOk result ((now (M.past home.new) side).reads ≡ overwritten at (behind_gate payload.now) (now (M.past home.old) side).reads) }
    ensures opening { M.opening home.new ≡ M.opening home.old }
    ensures steady { OnOk result (M.counted home.new ≡ M.counted home.old) }
    ensures cause { OnErr result (HasRisen (M.counted home.old) (M.counted home.new)) }
{
    let size = payload.len() as u64;
    write(home, side, at, &length_field(payload))?;
    write(home, side, at + 4, payload)?;
    write(home, side, at + 4 + size, &[0])?;
    Ok(())
}

// Writes a length, a payload and a closed gate from this place on: by one write where they are short, since a write
// costs more than the copying of so few bytes.
fn write_behind<M: Home>(home: &mut M, side: Side, at: u64, payload: &[u8]) -> Result<(), Failed>
    requires is_open { IsOpen (M.opening home.old) }
    requires size { length payload.now < 2 ^ 32 }
    requires range { at ≤ 2 ^ 40 }
    requires no_gap { IsTrue M.tells → at ≤ length (now (M.past home.old) side).reads }
    ensures run { IsTrue M.tells → (front : List ℕ) → length front ≤ at → IsFrontSafe front (now (M.past home.old) side) → Runs side (IsFrontSafe front) (M.past home.old) (M.past home.new) }
    ensures written { IsTrue M.tells → OnOk result ((now (M.past home.new) side).reads ≡ overwritten at (behind_gate payload.now) (now (M.past home.old) side).reads) }
    ensures opening { M.opening home.new ≡ M.opening home.old }
    ensures steady { OnOk result (M.counted home.new ≡ M.counted home.old) }
    ensures cause { OnErr result (HasRisen (M.counted home.old) (M.counted home.new)) }
{
    match short_record(payload) {
        Ok(record) => write(home, side, at, &record),
        Err(_) => write_parts(home, side, at, payload),
    }
}

// Writes a length, a payload and a closed gate from this place on, and syncs.
fn put_behind<M: Home>(home: &mut M, side: Side, at: u64, payload: &[u8]) -> Result<(), Failed>
    requires is_open { IsOpen (M.opening home.old) }
    requires size { length payload.now < 2 ^ 32 }
    requires range { at ≤ 2 ^ 40 }
    requires at_rest { IsTrue M.tells → IsAtRest side at (M.past home.old) }
    ensures run { IsTrue M.tells → Runs side (IsFrontSafe (take at (now (M.past home.old) side).reads)) (M.past home.old) (M.past home.new) }
    ensures done { IsTrue M.tells → OnOk result (now (M.past home.new) side ≡ settled (overwritten at (behind_gate payload.now) (now (M.past home.old) side).reads)) }
    ensures opening { M.opening home.new ≡ M.opening home.old }
    ensures steady { OnOk result (M.counted home.new ≡ M.counted home.old) }
    ensures cause { OnErr result (HasRisen (M.counted home.old) (M.counted home.new)) }
{
    write_behind(home, side, at, payload)?;
    home.sync(side)?;
    Ok(())
}

// Puts a record behind the closed gate, which stands right before this place, and opens the gate.
pub(crate) fn put_record<M: Home>(
    home: &mut M,
    side: Side,
    at: u64,
    payload: &[u8],
) -> Result<(), Failed>
    requires is_open { IsOpen (M.opening home.old) }
    requires size { length payload.now < 2 ^ 32 }
    requires range { (65 ≤ at) × (at ≤ 2 ^ 40) }
    requires at_rest { IsTrue M.tells → IsAtRest side at (M.past home.old) }
    ensures run { IsTrue M.tells → (header : List ℕ) (payloads : List (List ℕ)) → Stands side at (M.past home.old) header payloads → Runs side (HasOrNot header payloads payload.now) (M.past home.old) (M.past home.new) }
    ensures falls { IsTrue M.tells → (header : List ℕ) (payloads : List (List ℕ)) → Stands side at (M.past home.old) header payloads → NeverFalls header side (M.past home.old).clock (M.past home.new) }
    ensures done { IsTrue M.tells → OnOk result ((header : List ℕ) (payloads : List (List ℕ)) → Stands side at (M.past home.old) header payloads → Stands side (at + 5 + length payload.now) (M.past home.new) header (payloads ++ payload.now ∷ [])) }
    ensures rests { IsTrue M.tells → OnOk result (IsAtRest side (at + 5 + length payload.now) (M.past home.new)) }
    ensures opening { M.opening home.new ≡ M.opening home.old }
    ensures steady { OnOk result (M.counted home.new ≡ M.counted home.old) }
    ensures cause { OnErr result (HasRisen (M.counted home.old) (M.counted home.new)) }
{
    let gate = at - 1;
    put_behind(home, side, at, payload)?;
    home.write_at(side, gate, &[1])?;
    home.sync(side)?;
    Ok(())
}

// Cuts a file to nothing, and syncs.
fn clear<M: Home>(home: &mut M, side: Side) -> Result<(), Failed>
    requires { IsOpen (M.opening home.old) }
    ensures run { IsTrue M.tells → Runs side (IsClearing (now (M.past home.old) side)) (M.past home.old) (M.past home.new) }
    ensures done { IsTrue M.tells → OnOk result (now (M.past home.new) side ≡ settled []) }
    ensures opening { M.opening home.new ≡ M.opening home.old }
    ensures steady { OnOk result (M.counted home.new ≡ M.counted home.old) }
    ensures cause { OnErr result (HasRisen (M.counted home.old) (M.counted home.new)) }
{
    home.cut(side, 0)?;
    home.sync(side)?;
    Ok(())
}

// Writes, and syncs.
fn put<M: Home>(home: &mut M, side: Side, at: u64, bytes: &[u8]) -> Result<(), Failed>
    requires is_open { IsOpen (M.opening home.old) }
    requires no_gap { IsTrue M.tells → at ≤ length (now (M.past home.old) side).reads }
    ensures run { IsTrue M.tells → Runs side (IsWriting at bytes.now (now (M.past home.old) side)) (M.past home.old) (M.past home.new) }
    ensures done { IsTrue M.tells → OnOk result (now (M.past home.new) side ≡ settled (overwritten at bytes.now (now (M.past home.old) side).reads)) }
    ensures opening { M.opening home.new ≡ M.opening home.old }
    ensures steady { OnOk result (M.counted home.new ≡ M.counted home.old) }
    ensures cause { OnErr result (HasRisen (M.counted home.old) (M.counted home.new)) }
{
    home.write_at(side, at, bytes)?;
    home.sync(side)?;
    Ok(())
}

// Whether a file's first byte is an open gate.
fn is_open<M: Home>(home: &mut M, side: Side) -> Result<bool, Failed>
    requires { IsOpen (M.opening home.old) }
    ensures shut { IsTrue M.tells → IfOk result (λ open_gate. open_gate ≡ false → is_blank (now (M.past home.old) side).reads ≡ true) }
    ensures open_gate { IsTrue M.tells → IfOk result (λ open_gate. open_gate ≡ true → (0 < length (now (M.past home.old) side).reads) × (slice_index (now (M.past home.old) side).reads 0 ≡ 1)) }
    ensures looks { IsTrue M.tells → Looks (M.past home.old) (M.past home.new) }
    ensures opening { M.opening home.new ≡ M.opening home.old }
    ensures steady { OnOk result (M.counted home.new ≡ M.counted home.old) }
    ensures cause { OnErr result (HasRisen (M.counted home.old) (M.counted home.new)) }
{
    if home.len(side)? == 0 {
        return Ok(false);
    }
    let gate = byte_at(home, side, 0)?;
    Ok(gate == 1)
}

/// Closes a file's header where its gate is open, so that the file is blank. A stop leaves the file as it was, or blank.
pub fn close<M: Home>(home: &mut M, side: Side) -> Result<(), Failed>
    requires is_open { IsOpen (M.opening home.old) }
    requires settled { IsTrue M.tells → now (M.past home.old) side ≡ settled (now (M.past home.old) side).reads }
    ensures run { IsTrue M.tells → Runs side (AreSameOrBlank (now (M.past home.old) side).reads) (M.past home.old) (M.past home.new) }
    ensures done { IsTrue M.tells → OnOk result (IsReady side (M.past home.new)) }
    ensures opening { M.opening home.new ≡ M.opening home.old }
    ensures steady { OnOk result (M.counted home.new ≡ M.counted home.old) }
    ensures cause { OnErr result (HasRisen (M.counted home.old) (M.counted home.new)) }
{
    if !is_open(home, side)? {
        return Ok(());
    }
    put(home, side, 0, &[0])
}

/// Makes a blank file anew: an open gate with these bytes behind it. The gate is opened once they are on the disk, so
/// until then a stop leaves a blank file.
pub fn write_anew<M: Home>(home: &mut M, side: Side, behind: &[u8]) -> Result<(), Failed>
    requires is_open { IsOpen (M.opening home.old) }
    requires ready { IsTrue M.tells → IsReady side (M.past home.old) }
    ensures run { IsTrue M.tells → (most : ℕ) → length (now (M.past home.old) side).reads ≤ most → 1 + length behind.now ≤ most → Runs side (AreBlankOr most (1 ∷ behind.now)) (M.past home.old) (M.past home.new) }
    ensures done { IsTrue M.tells → OnOk result (now (M.past home.new) side ≡ settled (1 ∷ behind.now)) }
    ensures opening { M.opening home.new ≡ M.opening home.old }
    ensures steady { OnOk result (M.counted home.new ≡ M.counted home.old) }
    ensures cause { OnErr result (HasRisen (M.counted home.old) (M.counted home.new)) }
{
    clear(home, side)?;
    put(home, side, 0, &[0])?;
    put(home, side, 1, behind)?;
    put(home, side, 0, &[1])?;
    Ok(())
}
