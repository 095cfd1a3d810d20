//! The image of a world in the other file of a home.
ghost use Rattle.std.specs.Prelude.{◌≡◌, ◌+◌, ◌<◌, ◌≤◌, ◌^◌, ℕ, List, [], ◌∷◌, ◌++◌, length, IfOk, IfErr, OnOk, OnErr, IsErrOf, IsTrue};
ghost use Rattle.dk_types.specs.Faults.{HasRisen};
ghost use Rattle.dk_types.specs.GameIds.{IsGameId};
ghost use Rattle.dk_types.specs.declared.side.Side.{Side as Which};
ghost use Rattle.dk_types.specs.declared.limits.TheConstants.{NUMBERS_END};
ghost use Rattle.dk_disk.specs.Disk.{settled};
ghost use Rattle.dk_disk.specs.Opening.{IsOpen};
ghost use Rattle.dk_disk.specs.DiskHistories.{now, other_side};
ghost use Rattle.dk_model.specs.DurableWorlds.{DurableWorld};
ghost use Rattle.dk_model.specs.Images.{image_spelling};
ghost use Rattle.dk_model.specs.Stores.{StoreHeader};
ghost use Rattle.dk_journal.specs.Headers.{store_header};
ghost use Rattle.dk_journal.specs.Moments.{Runs};
ghost use Rattle.dk_journal.specs.Recoveries.{Recovering, AllRecover, HeldNeverFalls, IsEither, IsWorld};
ghost use Rattle.dk_journal.specs.Stores.{HasStore, AreSettled};
ghost use Rattle.dk_checkpoint.specs.Given.{IsGiven, IsReplacing, next_header, behind_gate, only_image};
ghost use Rattle.dk_checkpoint.specs.Refusals.{IsEarly, HasBegun};
ghost use Rattle.dk_checkpoint.specs.declared.refused.CheckpointRefused.TheVariants.{DiskFault, TooLarge, EpochEnd, NoMemory as WantOfMemory};

use crate::refused::CheckpointRefused;
use byteorder::{BigEndian, ByteOrder};
use dk_disk::Home;
use dk_image::encode_image;
use dk_journal::{FORMAT, Header, Journal, close, header_fields_of, write_anew};
use dk_types::limits::NUMBERS_END;
use dk_types::{Blob, Durable, Failed, GameId, NoMemory, Side};
use std::alloc::Global;

// The side that this is not.
fn other_of(side: Side) -> Side
    ensures { result ≡ other_side side }
{
    match side {
        Side::Zero => Side::One,
        Side::One => Side::Zero,
    }
}

// What a file with this image has behind its gate.
fn file_of(alloc: Global, header: &Header, image: &Blob) -> Result<Blob, NoMemory>
    requires { length image.now < 2 ^ 32 }
    ensures { IfOk result (λ bytes. (bytes ≡ behind_gate (store_header header.now) image.now) × (length bytes ≡ 69 + length image.now) × IsGameId header.now.game) }
{
    let image = image.as_slice();
    let mut bytes = header_fields_of(alloc, header)?.into_vec()?;
    bytes.push(1)?;
    let mut length = [0; 4];
    BigEndian::write_u32(&mut length, image.len() as u32);
    bytes.extend_from_slice(&length)?;
    bytes.extend_from_slice(image)?;
    bytes.push(0)?;
    Ok(Blob::from_vec(bytes))
}

// The new file behind its gate. All memory that a checkpoint needs is taken here.
fn prepare(
    alloc: Global,
    game: &GameId,
    durable: &Durable,
    epoch: u64,
) -> Result<Blob, CheckpointRefused>
    ensures ok { IfOk result (λ bytes. (bytes ≡ behind_gate (next_header game.now epoch) (image_spelling durable.now)) × (length bytes ≡ 69 + length (image_spelling durable.now))) }
    ensures within { OnOk result ((length (image_spelling durable.now) < 2 ^ 32) × (epoch + 1 < NUMBERS_END)) }
    ensures game { OnOk result (IsGameId game.now) }
    ensures large { (n : ℕ) → IsErrOf result (TooLarge n) → (n ≡ length (image_spelling durable.now)) × (2 ^ 32 ≤ n) }
    ensures spent { (n : ℕ) → IsErrOf result (EpochEnd n) → (n ≡ epoch) × (NUMBERS_END ≤ n + 1) × (length (image_spelling durable.now) < 2 ^ 32) }
    ensures only { IfErr result IsEarly }
{
    let image = encode_image(alloc, durable)?;
    if epoch >= NUMBERS_END - 1 {
        return Err(CheckpointRefused::EpochEnd { epoch });
    }
    let header = Header {
        game: *game,
        epoch: epoch + 1,
        format: FORMAT,
    };
    let bytes = file_of(alloc, &header, &image)?;
    Ok(bytes)
}

// Makes a file into one with an open gate and these bytes behind it.
fn replace<M: Home>(home: &mut M, side: Side, behind: &[u8]) -> Result<(), Failed>
    requires is_open { IsOpen (M.opening home.old) }
    requires settled { IsTrue M.tells → now (M.past home.old) side ≡ settled (now (M.past home.old) side).reads }
    ensures run { IsTrue M.tells → Runs side (IsReplacing (now (M.past home.old) side).reads (1 ∷ behind.now)) (M.past home.old) (M.past home.new) }
    ensures done { IsTrue M.tells → OnOk result (now (M.past home.new) side ≡ settled (1 ∷ behind.now)) }
    ensures opening { M.opening home.new ≡ M.opening home.old }
    ensures steady { OnOk result (M.counted home.new ≡ M.counted home.old) }
    ensures cause { OnErr result (HasRisen (M.counted home.old) (M.counted home.new)) }
{
    close(home, side)?;
    write_anew(home, side, behind)
}

/// Writes the image of a world into the file that does not stand, with the next epoch, so that it stands. At `Ok` the
/// journal goes on behind the image, on the side that is given. After `DiskFault` the store is to be opened again; else
/// nothing was written. All memory is taken before the first write.
pub fn checkpoint<M: Home>(
    alloc: Global,
    home: &mut M,
    game: &GameId,
    durable: &Durable,
    journal: &Journal,
    side: Side,
) -> Result<(Journal, Side), CheckpointRefused>
    requires is_open { IsOpen (M.opening home.old) }
    requires settled { IsTrue M.tells → AreSettled (M.past home.old) }

    // At each moment since the call began each image recovers to the world from before, or to the given one.
    ensures run { IsTrue M.tells → (header : StoreHeader) (payloads : List (List ℕ)) (before given : DurableWorld) → IsGiven (M.past home.old) side journal.now durable.now header payloads before given → Recovering (IsEither before given) (M.past home.old) (M.past home.new) } // What is held does not fall where the given world is the one from before.
    ensures falls { IsTrue M.tells → (header : StoreHeader) (payloads : List (List ℕ)) (before given : DurableWorld) → IsGiven (M.past home.old) side journal.now durable.now header payloads before given → before ≡ given → HeldNeverFalls (M.past home.old).clock (M.past home.new) }

    // The file that stands is left, whatever comes.
    ensures leaves { IsTrue M.tells → (t : ℕ) → (M.past home.old).clock ≤ t → t ≤ (M.past home.new).clock → (M.past home.new).disks t side ≡ now (M.past home.old) side }

    // At `Ok` the other file stands with the image of the given world, and each image recovers to that.
    ensures stands { IsTrue M.tells → IfOk result (λ made. (header : StoreHeader) (payloads : List (List ℕ)) (before given : DurableWorld) → IsGiven (M.past home.old) side journal.now durable.now header payloads before given → HasStore (M.past home.new) made.1 made.0 (next_header game.now header.epoch) (only_image durable.now) given) }
    ensures recovers { IsTrue M.tells → OnOk result ((header : StoreHeader) (payloads : List (List ℕ)) (before given : DurableWorld) → IsGiven (M.past home.old) side journal.now durable.now header payloads before given → AllRecover (IsWorld given) (M.past home.new) (M.past home.new).clock) }
    ensures rests { IsTrue M.tells → OnOk result (AreSettled (M.past home.new)) }
    ensures journal { IfOk result (λ made. (made.1 ≡ other_side side) × (made.0.side ≡ made.1) × (made.0.epoch ≡ journal.now.epoch + 1) × (made.0.format ≡ 2) × (made.0.length ≡ 70 + length (image_spelling durable.now))) }

    // An error has a cause: the image's length first, then the epoch.
    ensures large { (n : ℕ) → IsErrOf result (TooLarge n) → (n ≡ length (image_spelling durable.now)) × (2 ^ 32 ≤ n) }
    ensures spent { (n : ℕ) → IsErrOf result (EpochEnd n) → (n ≡ journal.now.epoch) × (NUMBERS_END ≤ n + 1) × (length (image_spelling durable.now) < 2 ^ 32) }
    ensures within { HasBegun result → (length (image_spelling durable.now) < 2 ^ 32) × (journal.now.epoch + 1 < NUMBERS_END) }
    ensures untouched { (HasBegun result → ⊥) → home.new ≡ home.old }
    ensures cause { IsErrOf result DiskFault → HasRisen (M.counted home.old) (M.counted home.new) }
    ensures steady { (IsErrOf result DiskFault → ⊥) → M.counted home.new ≡ M.counted home.old }
    ensures opening { M.opening home.new ≡ M.opening home.old }
{
    let behind = prepare(alloc, game, durable, journal.epoch())?;
    let other = other_of(side);
    replace(home, other, behind.as_slice())?;
    let length = 1 + behind.as_slice().len() as u64;
    Ok((Journal::standing(other, journal.epoch() + 1, length), other))
}
