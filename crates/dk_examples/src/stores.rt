//! Stores.
ghost use Rattle.dk_examples.specs.StoreRows.{HeadersAreSpelled, FirstCommitIsSpelled, BareCommitIsSpelled, LaterCommitsAreSpelled, ImageIsSpelled};
ghost use Rattle.dk_examples.specs.StoreRows.{BlankFilesAreNoStore, TornHeadersAreNoStore, WrongHeadersAreToldByPlace, TheGreaterEpochStands};
ghost use Rattle.dk_examples.specs.StoreRows.{StoresHoldTheirWorld, JournalsHoldTheirWorld, TornRecordsAreNotLookedAt, ImagesStand, DamageIsToldByPlace};

/// Headers of both formats, and of the next epoch, byte for byte.
pub fn headers_are_spelled()
    ensures { HeadersAreSpelled }
{}

/// A first commit, byte for byte.
pub fn first_commit_is_spelled()
    ensures { FirstCommitIsSpelled }
{}

/// A commit without effects has a payload of 48 bytes.
pub fn bare_commit_is_spelled()
    ensures { BareCommitIsSpelled }
{}

/// The commit of a login and that of the end of its session, byte for byte.
pub fn later_commits_are_spelled()
    ensures { LaterCommitsAreSpelled }
{}

/// The image of the world after a first commit, byte for byte.
pub fn image_is_spelled()
    ensures { ImageIsSpelled }
{}

/// Blank files are no store yet, unless the first is longer than a header and a gate.
pub fn blank_files_are_no_store()
    ensures { BlankFilesAreNoStore }
{}

/// A file that is open and ends within its header is not a store.
pub fn torn_headers_are_no_store()
    ensures { TornHeadersAreNoStore }
{}

/// A wrong field of a header is told by its place.
pub fn wrong_headers_are_told_by_place()
    ensures { WrongHeadersAreToldByPlace }
{}

/// Of two live files that of the greater epoch stands, and equal epochs are not a store.
pub fn the_greater_epoch_stands()
    ensures { TheGreaterEpochStands }
{}

/// A new store holds nothing, and after a first commit its world.
pub fn stores_hold_their_world()
    ensures { StoresHoldTheirWorld }
{}

/// A journal of four commits holds the world that they lead to.
pub fn journals_hold_their_world()
    ensures { JournalsHoldTheirWorld }
{}

/// What stands behind a closed gate is not looked at.
pub fn torn_records_are_not_looked_at()
    ensures { TornRecordsAreNotLookedAt }
{}

/// After a checkpoint the other file stands, and holds the same world.
pub fn images_stand()
    ensures { ImagesStand }
{}

/// A store is damaged at the gate of the first record that does not fit.
pub fn damage_is_told_by_place()
    ensures { DamageIsToldByPlace }
{}
