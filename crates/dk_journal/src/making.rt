//! Making an empty journal.
ghost use Rattle.std.specs.Prelude.{◌≡◌, ◌<◌, ◌≤◌, ◌++◌, ◌^◌, ℕ, List, [], ◌∷◌, length, IfOk, IfErr, OnOk, IsErrOf, IsTrue};
ghost use Rattle.dk_types.specs.Faults.{HasRisen};
ghost use Rattle.dk_types.specs.GameIds.{IsGameId};
ghost use Rattle.dk_types.specs.declared.limits.TheConstants.{NUMBERS_END};
ghost use Rattle.dk_disk.specs.Opening.{IsOpen};
ghost use Rattle.dk_disk.specs.DiskHistories.{now};
ghost use Rattle.dk_model.specs.Stores.{header_fields, header_spelling};
ghost use Rattle.dk_journal.specs.Headers.{store_header};
ghost use Rattle.dk_journal.specs.Moments.{Runs, HasSome, IsNewOrEmpty};
ghost use Rattle.dk_journal.specs.Standing.{Stands, IsAtRest, IsReady};
ghost use Rattle.dk_journal.specs.Refusals.{IsCreateFault};
ghost use Rattle.dk_journal.specs.declared.refused.JournalRefused.TheVariants.{DiskFault, NoMemory as WantOfMemory};

use crate::header::{FORMAT, Header, header_fields_of};
use crate::journal::Journal;
use crate::refused::JournalRefused;
use crate::writing::write_anew;
use dk_disk::Home;
use dk_types::{Blob, GameId, NoMemory, Side};
use std::alloc::Global;

// What an empty journal has behind its first gate: a header, and a closed gate.
fn empty_journal(alloc: Global, header: &Header) -> Result<Blob, NoMemory>
    ensures { IfOk result (λ bytes. (bytes ≡ header_fields (store_header header.now) ++ 0 ∷ []) × (length (header_spelling (store_header header.now)) ≡ 64) × IsGameId header.now.game) }
{
    let mut bytes = header_fields_of(alloc, header)?.into_vec()?;
    bytes.push(0)?;
    Ok(Blob::from_vec(bytes))
}

/// Makes a file that is blank, and no longer than a header and a gate, into a journal without payloads. A stop while it
/// is made leaves a blank file or the whole one.
pub fn create<M: Home>(
    alloc: Global,
    home: &mut M,
    side: Side,
    game: &GameId,
    epoch: u64,
) -> Result<Journal, JournalRefused>
    requires is_open { IsOpen (M.opening home.old) }
    requires epoch { epoch < NUMBERS_END }
    requires ready { IsTrue M.tells → IsReady side (M.past home.old) }
    requires short { IsTrue M.tells → length (now (M.past home.old) side).reads ≤ 65 }

    // At each moment of the call each image is blank, or is the empty journal, and some image is there; at the end it is the empty journal.
    ensures run { IsTrue M.tells → Runs side (IsNewOrEmpty (header_spelling (record { game = game.now; epoch = epoch; format = 2 }))) (M.past home.old) (M.past home.new) }
    ensures some { IsTrue M.tells → Runs side HasSome (M.past home.old) (M.past home.new) }
    ensures stands { IsTrue M.tells → IfOk result (λ journal. Stands side journal.length (M.past home.new) (header_spelling (record { game = game.now; epoch = epoch; format = 2 })) []) }
    ensures rests { IsTrue M.tells → IfOk result (λ journal. IsAtRest side journal.length (M.past home.new)) }
    ensures journal { IfOk result (λ journal. (journal.side ≡ side) × (journal.epoch ≡ epoch) × (journal.format ≡ 2) × (journal.length ≡ 65)) }

    ensures game { (IsErrOf result WantOfMemory → ⊥) → IsGameId game.now }

    // An error has a cause.
    ensures memory { IsErrOf result WantOfMemory → home.new ≡ home.old }
    ensures cause { IsErrOf result DiskFault → HasRisen (M.counted home.old) (M.counted home.new) }
    ensures steady { OnOk result (M.counted home.new ≡ M.counted home.old) }
    ensures only { IfErr result IsCreateFault }
    ensures opening { M.opening home.new ≡ M.opening home.old }
{
    let header = Header {
        game: *game,
        epoch,
        format: FORMAT,
    };
    let Ok(bytes) = empty_journal(alloc, &header) else {
        return Err(JournalRefused::NoMemory);
    };
    match write_anew(home, side, bytes.as_slice()) {
        Ok(()) => Ok(Journal::standing(side, epoch, 65)),
        Err(_) => Err(JournalRefused::DiskFault),
    }
}
