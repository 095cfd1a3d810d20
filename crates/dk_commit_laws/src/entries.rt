//! Entries of commits.
ghost use Rattle.dk_commit_laws.specs.EntryOfStep.{EntriesAreNext, EntriesAreSpelled};

/// The entry of a step fits behind the world before it, and leads to the world after it.
pub fn the_entry_of_a_step_is_next()
    ensures { EntriesAreNext }
{}

/// The entry of a step is spelled in the format that is written, in fewer bytes than a record can hold.
pub fn the_entry_of_a_step_is_spelled()
    ensures { EntriesAreSpelled }
{}
