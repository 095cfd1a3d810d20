//! Recovering a store: from the two files of a home to the durable world that they hold.
ghost use Rattle.std.specs.Prelude.{◌≡◌, length, IfOk, IfErr, MatchResult, IsErrOf, IsTrue, None};
ghost use Rattle.dk_types.specs.Faults.{HasRisen};
ghost use Rattle.dk_types.specs.declared.side.Side.TheVariants.{Zero as First, One as Second};
ghost use Rattle.dk_disk.specs.Opening.{IsOpen};
ghost use Rattle.dk_disk.specs.DiskHistories.{now};
ghost use Rattle.dk_model.specs.DurableWorlds.{DurableWorld, empty_world};
ghost use Rattle.dk_model.specs.Images.{world_lists};
ghost use Rattle.dk_model.specs.Recovered.{HasDurable};
ghost use Rattle.dk_model.specs.Validity.{IsValid};
ghost use Rattle.dk_journal.specs.Moments.{Looks};
ghost use Rattle.dk_journal.specs.Stores.{AreSettled};
ghost use Rattle.dk_recover.specs.Files.{OnlyReads, Settles};
ghost use Rattle.dk_recover.specs.Recovery.{IsOurs, IsAnswer, IsOfDevice, HasValidWorld, IsOnItsSide};
ghost use Rattle.dk_recover.specs.Stood.{IsStanding};
ghost use Rattle.dk_recover.specs.declared.fault.OpenFault.TheVariants.{DiskFault as FaultOfDisk, NoMemory as WantOfMemory};

use crate::fault::OpenFault;
use crate::records::read_store;
use crate::standing::find_standing;
use crate::world::World;
use dk_disk::Home;
use dk_journal::{FORMAT, Header, Journal, Scan};
use dk_types::{Durable, GameId, Side};
use std::alloc::Global;

/// What two files hold.
#[derive(Drop)]
pub struct Recovered {
    /// The durable world. Where there is no store yet it is the empty one.
    pub durable: Durable,
    /// The journal that stands. `None`: there is no store yet.
    pub store: Option<Journal>,
    /// The file that stands, or `Side::Zero`, where a store is to be made.
    pub side: Side,
    /// The format of its payloads, or the one that a store is made in.
    pub format: u16,
}

// Where there is no store yet.
fn no_store(alloc: Global) -> Result<Recovered, OpenFault>
    ensures new { IfOk result (λ found. (found.store ≡ None) × (found.durable ≡ world_lists empty_world) × (found.side ≡ First) × (found.format ≡ 2)) }
    ensures only { IfErr result (λ fault. fault ≡ WantOfMemory) }
{
    let durable = World::empty(alloc).durable(alloc)?;
    Ok(Recovered {
        durable,
        store: None,
        side: Side::Zero,
        format: FORMAT,
    })
}

// What the file that stands holds, if it is of this game.
fn recover_standing<M: Home>(
    alloc: Global,
    home: &mut M,
    game: &GameId,
    header: Header,
    scan: Scan,
) -> Result<Recovered, OpenFault>
    requires is_open { IsOpen (M.opening home.old) }
    requires whole { IsTrue M.tells → scan.end ≡ length (now (M.past home.old) scan.side).reads }
    ensures answer { IsTrue M.tells → AreSettled (M.past home.old) → IsStanding (now (M.past home.old) First).reads (now (M.past home.old) Second).reads header scan → IsAnswer (now (M.past home.old) First).reads (now (M.past home.old) Second).reads game.now (M.past home.new) result }
    ensures valid { IfOk result HasValidWorld }
    ensures side { IfOk result IsOnItsSide }
    ensures looks { IsTrue M.tells → Looks (M.past home.old) (M.past home.new) }
    ensures steady { (IsErrOf result FaultOfDisk → ⊥) → M.counted home.new ≡ M.counted home.old }
    ensures cause { IsErrOf result FaultOfDisk → HasRisen (M.counted home.old) (M.counted home.new) }
    ensures opening { M.opening home.new ≡ M.opening home.old }
{
    if header.game != *game {
        return Err(OpenFault::WrongGame { found: header.game });
    }
    let side = scan.side();
    let format = scan.format();
    let (world, journal) = read_store(alloc, home, header.epoch, scan)?;
    let durable = world.durable(alloc)?;
    Ok(Recovered {
        durable,
        store: Some(journal),
        side,
        format,
    })
}

/// Syncs both files of a home and reads what they hold, and writes nothing. A store of another game is not read.
pub fn recover<M: Home>(alloc: Global, home: &mut M, game: &GameId) -> Result<Recovered, OpenFault>
    requires { IsOpen (M.opening home.old) }

    // Which answer it is, the bytes of both files decide, but for want of memory and a disk fault.
    ensures answer { IsTrue M.tells → IsAnswer (now (M.past home.old) First).reads (now (M.past home.old) Second).reads game.now (M.past home.new) result }

    // A store of this game that holds a world is never refused by its bytes, and neither is no store yet.
    ensures accepted { IsTrue M.tells → (d : DurableWorld) → HasDurable (now (M.past home.old) First).reads (now (M.past home.old) Second).reads d → IsOurs (now (M.past home.old) First).reads (now (M.past home.old) Second).reads game.now → MatchResult result (λ found. found.durable ≡ world_lists d) IsOfDevice }
    ensures holds { IsTrue M.tells → IfOk result (λ found. (d : DurableWorld) × HasDurable (now (M.past home.old) First).reads (now (M.past home.old) Second).reads d × IsValid d × (found.durable ≡ world_lists d)) }

    // Whatever the home tells, the world is a valid one, and the journal is on the side that is told.
    ensures valid { IfOk result HasValidWorld }
    ensures side { IfOk result IsOnItsSide }

    // Nothing is written, and from some moment on nothing is pending.
    ensures reads { IsTrue M.tells → OnlyReads (M.past home.old) (M.past home.new) }
    ensures settles { IsTrue M.tells → (IsErrOf result FaultOfDisk → ⊥) → Settles (M.past home.old) (M.past home.new) }

    ensures steady { (IsErrOf result FaultOfDisk → ⊥) → M.counted home.new ≡ M.counted home.old }
    ensures cause { IsErrOf result FaultOfDisk → HasRisen (M.counted home.old) (M.counted home.new) }
    ensures opening { M.opening home.new ≡ M.opening home.old }
{
    match find_standing(home)? {
        None => no_store(alloc),
        Some((header, scan)) => recover_standing(alloc, home, game, header, scan),
    }
}
