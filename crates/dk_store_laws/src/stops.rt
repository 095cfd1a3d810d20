//! Laws of what a stop leaves.
ghost use Rattle.std.specs.Prelude.{◌≡◌, ◌⊎◌, ℕ, ◌≤◌, List, length};
ghost use Rattle.dk_types.specs.declared.side.Side.{Side};
ghost use Rattle.dk_types.specs.declared.side.Side.TheVariants.{Zero};
ghost use Rattle.dk_disk.specs.DiskHistories.{DiskHistory, now, other_side, MayLeave};
ghost use Rattle.dk_model.specs.DurableWorlds.{DurableWorld, empty_world};
ghost use Rattle.dk_model.specs.Stores.{StoreHeader, IsHeader, header_spelling, look, Live, StandsOn, standing};
ghost use Rattle.dk_model.specs.Recovered.{Takes, HasWorld, Recovers, Holding, NotYet, file_on};
ghost use Rattle.dk_journal.specs.Moments.{Runs, HasOrNot, NeverFalls, IsNewOrEmpty};
ghost use Rattle.dk_journal.specs.Recoveries.{HeldNeverFalls};
ghost use Rattle.dk_journal.specs.Ranks.{IsLesser, IsOutranked, IsBlankBeside};

/// A file stands exactly where it is live, and the other is blank or has a lesser epoch.
pub fn a_standing_file_outranks_the_other()
    ensures outranks { (side : Side) (header : StoreHeader) (zero one : List ℕ) → standing zero one ≡ StandsOn side header → (look (file_on side zero one) ≡ Live header) × IsLesser header (file_on (other_side side) zero one) }
    ensures wins { (side : Side) (header : StoreHeader) (zero one : List ℕ) → look (file_on side zero one) ≡ Live header → IsLesser header (file_on (other_side side) zero one) → standing zero one ≡ StandsOn side header }
{}

/// While a record is appended to the file that stands, and nothing is pending on the other, each image of both recovers
/// to the world before it, or to the world of its entries.
pub fn an_append_keeps_the_world_or_adds_to_it()
    ensures { (side : Side) (header : StoreHeader) (payloads : List (List ℕ)) (payload : List ℕ) (d e : DurableWorld) (old new : DiskHistory) → IsHeader header → IsOutranked header old (other_side side) → HasWorld header payloads d → Takes header.format d payload e
        → Runs side (HasOrNot (header_spelling header) payloads payload) old new → (t : ℕ) → old.clock ≤ t → t ≤ new.clock → (zero one : List ℕ) → MayLeave new t zero one → Recovers zero one (Holding d) ⊎ Recovers zero one (Holding e) }
{}

/// While a record is appended to the file that stands, and nothing is pending on the other, what is held does not fall.
pub fn what_is_held_does_not_fall_over_an_append()
    ensures { (side : Side) (header : StoreHeader) (payloads : List (List ℕ)) (payload : List ℕ) (d e : DurableWorld) (old new : DiskHistory) → IsHeader header → IsOutranked header old (other_side side) → HasWorld header payloads d → Takes header.format d payload e
        → Runs side (HasOrNot (header_spelling header) payloads payload) old new → NeverFalls (header_spelling header) side old.clock new → HeldNeverFalls old.clock new }
{}

/// While a file of the first epoch is made beside a blank one, and the first file has no more bytes than a header and a
/// gate, each image of both is no store yet, or has the empty world.
pub fn a_new_file_is_no_store_or_has_the_empty_world()
    ensures { (side : Side) (header : StoreHeader) (old new : DiskHistory) → IsHeader header → header.epoch ≡ 0 → IsBlankBeside old (other_side side) → length (now old Zero).reads ≤ 65
        → Runs side (IsNewOrEmpty (header_spelling header)) old new → (t : ℕ) → old.clock ≤ t → t ≤ new.clock → (zero one : List ℕ) → MayLeave new t zero one → Recovers zero one NotYet ⊎ Recovers zero one (Holding empty_world) }
{}
