//! From the files of an open home to the store that stands there.
ghost use Rattle.std.specs.Prelude.{◌≡◌, ◌⊎◌, ◌≤◌, ◌+◌, ◌<◌, ◌^◌, ℕ, length, IfOk, IfErr, IsErrOf, IsTrue};
ghost use Rattle.dk_types.specs.Faults.{HasRisen};
ghost use Rattle.dk_types.specs.declared.limits.TheConstants.{NUMBERS_END};
ghost use Rattle.dk_types.specs.declared.side.Side.TheVariants.{Zero as First, One as Second};
ghost use Rattle.dk_disk.specs.DiskHistories.{now};
ghost use Rattle.dk_disk.specs.Opening.{IsOpen};
ghost use Rattle.dk_model.specs.DurableWorlds.{empty_world};
ghost use Rattle.dk_model.specs.Validity.{IsValid};
ghost use Rattle.dk_journal.specs.Ranks.{IsBlankBeside};
ghost use Rattle.dk_journal.specs.Recoveries.{Recovering, HeldNeverFalls, IsWorld};
ghost use Rattle.dk_journal.specs.Refusals.{IsCreateFault};
ghost use Rattle.dk_journal.specs.Standing.{IsReady};
ghost use Rattle.dk_recover.specs.Files.{OnlyReads, Settles};
ghost use Rattle.dk_recover.specs.Recovery.{HasValidWorld, IsAnswer, IsOnItsSide};
ghost use Rattle.dk_core.specs.Listings.{world_of};
ghost use Rattle.dk_host.specs.declared.fault.OpenFault.TheVariants.{DiskFault as FaultOfDisk, NoMemory as WantOfMemory, ImageTooLarge, EpochEnd};
ghost use Rattle.dk_host.specs.OpenedStores.{image_length, HasValidLists, HoldsStore, IsAnewFault, IsFaultAnew, IsFaultMaking, IsFaultOf, IsLeftFaulty, IsMade, IsMadeAnew, IsMakingFault, IsOpenAnswer, IsPlaced, IsUnwritten, KeepsWorld};

use crate::fault::OpenFault;
use dk_checkpoint::{CheckpointRefused, checkpoint};
use dk_disk::Home;
use dk_journal::{FORMAT, Journal, JournalRefused, create};
use dk_recover::{OpenFault as RecoverFault, Recovered, recover};
use dk_types::{Durable, GameId, Side};
use std::alloc::Global;

/// A journal that stands, the side that it stands on, and its durable world.
#[derive(Drop)]
pub(crate) struct Stood {
    pub(crate) journal: Journal,
    pub(crate) side: Side,
    pub(crate) durable: Durable,
}

// What a refusal to recover is to one who opens the store.
fn fault_of(fault: RecoverFault) -> OpenFault
    ensures { IsFaultOf fault result }
{
    match fault {
        RecoverFault::NoMemory => OpenFault::NoMemory,
        RecoverFault::DiskFault => OpenFault::DiskFault,
        RecoverFault::NotAStore { side, at } => OpenFault::NotAStore { side, at },
        RecoverFault::WrongGame { found } => OpenFault::WrongGame { found },
        RecoverFault::Damaged { side, at } => OpenFault::Damaged { side, at },
    }
}

// What a refusal to make a journal is to one who opens the store.
fn fault_making(refused: JournalRefused) -> OpenFault
    requires { IsCreateFault refused }
    ensures { IsFaultMaking refused result }
{
    match refused {
        JournalRefused::NoMemory => OpenFault::NoMemory,
        _ => OpenFault::DiskFault,
    }
}

// Makes a store without records in the first file, where there is none yet.
fn make_store<M: Home>(
    alloc: Global,
    home: &mut M,
    game: &GameId,
    durable: Durable,
) -> Result<Stood, OpenFault>
    requires is_open { IsOpen (M.opening home.old) }
    requires ready { IsTrue M.tells → IsReady First (M.past home.old) }
    requires short { IsTrue M.tells → length (now (M.past home.old) First).reads ≤ 65 }
    requires beside { IsTrue M.tells → IsBlankBeside (M.past home.old) Second }
    ensures keeps { IsTrue M.tells → Recovering (IsWorld empty_world) (M.past home.old) (M.past home.new) × HeldNeverFalls (M.past home.old).clock (M.past home.new) }
    ensures stands { IsTrue M.tells → IfOk result (λ stood. HoldsStore (M.past home.new) stood.journal stood.side game.now empty_world) }
    ensures made { IfOk result (IsMade durable) }
    ensures memory { IsErrOf result WantOfMemory → home.new ≡ home.old }
    ensures only { IfErr result IsMakingFault }
    ensures cause { IsErrOf result FaultOfDisk → HasRisen (M.counted home.old) (M.counted home.new) }
    ensures steady { (IsErrOf result FaultOfDisk → ⊥) → M.counted home.new ≡ M.counted home.old }
    ensures opening { M.opening home.new ≡ M.opening home.old }
{
    match create(alloc, home, Side::Zero, game, 0) {
        Ok(journal) => Ok(Stood {
            journal,
            side: Side::Zero,
            durable,
        }),
        Err(refused) => Err(fault_making(refused)),
    }
}

// What a refusal to write a store anew is to one who opens it.
fn fault_anew(refused: CheckpointRefused) -> OpenFault
    ensures { IsFaultAnew refused result }
{
    match refused {
        CheckpointRefused::DiskFault => OpenFault::DiskFault,
        CheckpointRefused::TooLarge { length } => OpenFault::ImageTooLarge { length },
        CheckpointRefused::EpochEnd { epoch } => OpenFault::EpochEnd { epoch },
        CheckpointRefused::NoMemory => OpenFault::NoMemory,
    }
}

// Writes a store of the older format anew in the other file, with the world that it has.
fn migrate<M: Home>(
    alloc: Global,
    home: &mut M,
    game: &GameId,
    old: Stood,
) -> Result<Stood, OpenFault>
    requires is_open { IsOpen (M.opening home.old) }
    requires stands { IsTrue M.tells → HoldsStore (M.past home.old) old.journal old.side game.now (world_of old.durable) }
    requires valid { HasValidLists old.durable }
    ensures keeps { IsTrue M.tells → Recovering (IsWorld (world_of old.durable)) (M.past home.old) (M.past home.new) × HeldNeverFalls (M.past home.old).clock (M.past home.new) }
    ensures stands { IsTrue M.tells → IfOk result (λ stood. HoldsStore (M.past home.new) stood.journal stood.side game.now (world_of old.durable)) }
    ensures made { IfOk result (IsMadeAnew old) }
    ensures large { (n : ℕ) → IsErrOf result (ImageTooLarge n) → (n ≡ image_length old.durable) × (2 ^ 32 ≤ n) }
    ensures spent { (n : ℕ) → IsErrOf result (EpochEnd n) → (n ≡ old.journal.epoch) × (NUMBERS_END ≤ n + 1) × (image_length old.durable < 2 ^ 32) }
    ensures untouched { IfErr result (λ fault. (fault ≡ FaultOfDisk) ⊎ (home.new ≡ home.old)) }
    ensures only { IfErr result IsAnewFault }
    ensures cause { IsErrOf result FaultOfDisk → HasRisen (M.counted home.old) (M.counted home.new) }
    ensures steady { (IsErrOf result FaultOfDisk → ⊥) → M.counted home.new ≡ M.counted home.old }
    ensures opening { M.opening home.new ≡ M.opening home.old }
{
    let Stood {
        journal,
        side,
        durable,
    } = old;
    match checkpoint(alloc, home, game, &durable, &journal, side) {
        Ok((journal, side)) => Ok(Stood {
            journal,
            side,
            durable,
        }),
        Err(refused) => Err(fault_anew(refused)),
    }
}

// The store that stands on files with nothing pending, in the format that is written.
fn stand_on<M: Home>(
    alloc: Global,
    home: &mut M,
    game: &GameId,
    found: Recovered,
) -> Result<Stood, OpenFault>
    requires is_open { IsOpen (M.opening home.old) }
    requires found { IsTrue M.tells → IsAnswer (now (M.past home.old) First).reads (now (M.past home.old) Second).reads game.now (M.past home.old) (Ok found) }
    requires valid { HasValidWorld found }
    requires side { IsOnItsSide found }
    ensures answer { IsTrue M.tells → IsOpenAnswer (now (M.past home.old) First).reads (now (M.past home.old) Second).reads game.now result }
    ensures keeps { IsTrue M.tells → Recovering (IsWorld (world_of found.durable)) (M.past home.old) (M.past home.new) × HeldNeverFalls (M.past home.old).clock (M.past home.new) }
    ensures stood { IfOk result (λ stood. (stood.durable ≡ found.durable) × IsPlaced stood) }
    ensures stands { IsTrue M.tells → IfOk result (λ stood. HoldsStore (M.past home.new) stood.journal stood.side game.now (world_of stood.durable)) }
    ensures untouched { IsTrue M.tells → IsUnwritten (now (M.past home.old) First).reads (now (M.past home.old) Second).reads result → home.new ≡ home.old }
    ensures cause { IsErrOf result FaultOfDisk → HasRisen (M.counted home.old) (M.counted home.new) }
    ensures steady { (IsErrOf result FaultOfDisk → ⊥) → M.counted home.new ≡ M.counted home.old }
    ensures opening { M.opening home.new ≡ M.opening home.old }
{
    let Recovered {
        durable,
        store,
        side,
        format: _,
    } = found;
    match store {
        None => make_store(alloc, home, game, durable),
        Some(journal) => {
            let stood = Stood {
                journal,
                side,
                durable,
            };
            if stood.journal.format() == FORMAT {
                return Ok(stood);
            }
            migrate(alloc, home, game, stood)
        }
    }
}

/// The store of a game on the files of an open home. It is made where there is none yet, and written anew where it is of the
/// older format.
pub(crate) fn stand<M: Home>(alloc: Global, home: &mut M, game: &GameId) -> Result<Stood, OpenFault>
    requires { IsOpen (M.opening home.old) }
    ensures answer { IsTrue M.tells → IsOpenAnswer (now (M.past home.old) First).reads (now (M.past home.old) Second).reads game.now result }
    ensures stands { IsTrue M.tells → IfOk result (λ stood. HoldsStore (M.past home.new) stood.journal stood.side game.now (world_of stood.durable)) }
    ensures keeps { IsTrue M.tells → IfOk result (λ stood. KeepsWorld (world_of stood.durable) (M.past home.old) (M.past home.new)) }
    ensures valid { IfOk result (λ stood. IsValid (world_of stood.durable) × IsPlaced stood) }
    ensures reads { IsTrue M.tells → IsUnwritten (now (M.past home.old) First).reads (now (M.past home.old) Second).reads result → OnlyReads (M.past home.old) (M.past home.new) × Settles (M.past home.old) (M.past home.new) }
    ensures faulty { IsTrue M.tells → IsErrOf result FaultOfDisk → IsLeftFaulty (M.past home.old) (M.past home.new) }
    ensures cause { IsErrOf result FaultOfDisk → HasRisen (M.counted home.old) (M.counted home.new) }
    ensures steady { (IsErrOf result FaultOfDisk → ⊥) → M.counted home.new ≡ M.counted home.old }
    ensures opening { M.opening home.new ≡ M.opening home.old }
{
    match recover(alloc, home, game) {
        Ok(found) => stand_on(alloc, home, game, found),
        Err(fault) => Err(fault_of(fault)),
    }
}
