//! Opening a store: from an open home to the store that stands on it.
ghost use Rattle.std.specs.Prelude.{◌≡◌, IfOk, IsErrOf, IsTrue};
ghost use Rattle.dk_types.specs.Faults.{HasRisen};
ghost use Rattle.dk_types.specs.declared.side.Side.TheVariants.{Zero as First, One as Second};
ghost use Rattle.dk_disk.specs.DiskHistories.{now};
ghost use Rattle.dk_disk.specs.Opening.{IsOpen};
ghost use Rattle.dk_model.specs.DurableWorlds.{DurableWorld};
ghost use Rattle.dk_model.specs.Recovered.{HasDurable};
ghost use Rattle.dk_model.specs.Validity.{IsValid};
ghost use Rattle.dk_recover.specs.Files.{OnlyReads, Settles};
ghost use Rattle.dk_recover.specs.Recovery.{IsOurs};
ghost use Rattle.dk_core.specs.Listings.{world_of};
ghost use Rattle.dk_host.specs.declared.fault.OpenFault.TheVariants.{DiskFault as FaultOfDisk};
ghost use Rattle.dk_host.specs.OpenedStores.{home_of, answer_of, HoldsStore, IsLeftFaulty, IsOpenAnswer, IsUnwritten, IsWorldOrDevice, KeepsWorld, MayBeAnew};

use crate::fault::OpenRefused;
use crate::standing::{Stood, stand};
use dk_disk::Home;
use dk_types::{Durable, GameId, Side};
use std::alloc::Global;
use std::marker::Model;

/// A store that stands on an open home in the format that is written, with nothing pending.
#[derive(Drop)]
pub struct OpenedStore<M: Home> {
    pub(crate) home: M,
    pub(crate) stood: Stood,
    pub(crate) game: GameId,
}

impl<M: Home> Model for OpenedStore<M> {
    ghost use Rattle.dk_host.specs.OpenedStores.{StoreOpened, store_opened, IsOpenedStore};

    ghost Value = { StoreOpened M };

    ghost view = { λ s. store_opened s.home s.stood s.game };

    ghost invariant = { λ s. IsOpenedStore M.tells (M.past s.home) (M.opening s.home) s.stood s.game };
}

impl<M: Home> OpenedStore<M> {
    /// The side that the store stands on.
    pub fn side(&self) -> Side
        ensures { result ≡ self.now.side }
    {
        self.stood.side
    }

    /// How often the store was written anew.
    pub fn epoch(&self) -> u64
        ensures { result ≡ self.now.journal.epoch }
    {
        self.stood.journal.epoch()
    }

    /// The durable world, as lists.
    pub fn durable(&self) -> &Durable
        ensures { result.now ≡ self.now.durable }
    {
        &self.stood.durable
    }

    /// The home, for which the store is given up.
    pub fn into_home(self) -> M
        ensures { result ≡ self.home }
    {
        let OpenedStore {
            home,
            stood: _,
            game: _,
        } = self;
        home
    }
}

/// Recovers the store of a game on an open home. Where both files are blank, it makes the store in the first one. A store of
/// the older format is written anew in the other file before this answers.
pub fn open_store<M: Home>(
    alloc: Global,
    mut home: M,
    game: &GameId,
) -> Result<OpenedStore<M>, OpenRefused<M>>
    requires { IsOpen (M.opening home) }

    // The bytes of both files decide which answer it is and how the store is left, but for want of memory and a disk fault.
    ensures answer { IsTrue M.tells → IsOpenAnswer (now (M.past home) First).reads (now (M.past home) Second).reads game.now (answer_of result) }

    // No bytes of a store of this game that holds a world are refused, unless it is to be written anew and can not be; and neither are those of no store yet.
    ensures accepted { IsTrue M.tells → (d : DurableWorld) → HasDurable (now (M.past home) First).reads (now (M.past home) Second).reads d → IsOurs (now (M.past home) First).reads (now (M.past home) Second).reads game.now → MayBeAnew (now (M.past home) First).reads (now (M.past home) Second).reads d → IsWorldOrDevice d (answer_of result) }

    // What was opened stands on the home with a valid world, which is kept from the end of the first syncs on.
    ensures stands { IsTrue M.tells → IfOk result (λ store. HoldsStore (M.past store.home) store.journal store.side game.now (world_of store.durable)) }
    ensures keeps { IsTrue M.tells → IfOk result (λ store. KeepsWorld (world_of store.durable) (M.past home) (M.past store.home)) }
    ensures valid { IfOk result (λ store. IsValid (world_of store.durable)) }
    ensures placed { IfOk result (λ store. (store.game ≡ game.now) × (store.journal.format ≡ 2) × (store.journal.side ≡ store.side)) }

    // Nothing is written, unless a store is made or written anew; and a disk fault leaves the world that the files held.
    ensures reads { IsTrue M.tells → IsUnwritten (now (M.past home) First).reads (now (M.past home) Second).reads (answer_of result) → OnlyReads (M.past home) (M.past (home_of result)) × Settles (M.past home) (M.past (home_of result)) }
    ensures faulty { IsTrue M.tells → IsErrOf (answer_of result) FaultOfDisk → IsLeftFaulty (M.past home) (M.past (home_of result)) }

    ensures steady { (IsErrOf (answer_of result) FaultOfDisk → ⊥) → M.counted (home_of result) ≡ M.counted home }
    ensures cause { IsErrOf (answer_of result) FaultOfDisk → HasRisen (M.counted home) (M.counted (home_of result)) }
    ensures opening { M.opening (home_of result) ≡ M.opening home }
{
    match stand(alloc, &mut home, game) {
        Ok(stood) => Ok(OpenedStore {
            home,
            stood,
            game: *game,
        }),
        Err(fault) => Err(OpenRefused { home, fault }),
    }
}
