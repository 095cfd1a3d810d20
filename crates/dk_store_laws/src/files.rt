//! Laws of the bytes of files.
ghost use Rattle.std.specs.Prelude.{◌≡◌, ◌+◌, ℕ, List, [], ◌∷◌, ◌++◌, take};
ghost use Rattle.dk_model.specs.DurableWorlds.{DurableWorld, empty_world};
ghost use Rattle.dk_model.specs.Stores.{StoreHeader, IsHeader, header_spelling, end_of, Reads, look, Live};
ghost use Rattle.dk_model.specs.Recovered.{Takes, HasWorld, HoldsWorld};

/// A file has one reading, with its header.
pub fn a_file_has_one_reading()
    ensures payloads { (file header : List ℕ) (payloads others : List (List ℕ)) → Reads file header payloads → Reads file header others → payloads ≡ others }
    ensures header { (file header other : List ℕ) (payloads others : List (List ℕ)) → Reads file header payloads → Reads file other others → header ≡ other }
{}

/// A file that agrees with another up to its closed gate reads as that.
pub fn bytes_behind_the_gate_do_not_count()
    ensures { (file other header : List ℕ) (payloads : List (List ℕ)) → Reads file header payloads → take (end_of header payloads + 1) other ≡ take (end_of header payloads + 1) file → Reads other header payloads }
{}

/// A file that has a reading under a header is live under it.
pub fn a_file_with_a_header_is_live()
    ensures { (file : List ℕ) (header : StoreHeader) (payloads : List (List ℕ)) → IsHeader header → Reads file (header_spelling header) payloads → look file ≡ Live header }
{}

/// Payloads have one world, and so has a file.
pub fn a_file_has_one_world()
    ensures payloads { (header : StoreHeader) (payloads : List (List ℕ)) (d e : DurableWorld) → HasWorld header payloads d → HasWorld header payloads e → d ≡ e }
    ensures file { (file : List ℕ) (header : StoreHeader) (d e : DurableWorld) → HoldsWorld file header d → HoldsWorld file header e → d ≡ e }
{}

/// The world after one more record is that of its entries; a file of the first epoch without records has the empty world.
pub fn one_more_record_is_its_entries()
    ensures next { (header : StoreHeader) (payloads : List (List ℕ)) (payload : List ℕ) (d e : DurableWorld) → HasWorld header payloads d → Takes header.format d payload e → HasWorld header (payloads ++ payload ∷ []) e }
    ensures first { (header : StoreHeader) → header.epoch ≡ 0 → HasWorld header [] empty_world }
{}
