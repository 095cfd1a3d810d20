//! Which reads of a run stand.
ghost use Rattle.dk_laws.specs.RetriesLaw.{ReadsStandOrOneIsStale, NoneIsStaleWhereAllStand, TheFirstStaleReadIsOne, StaleReadsTellOfCommits};

/// After a history all reads of a run stand, or one is the first that does not.
pub fn reads_stand_or_one_is_stale()
    ensures { ReadsStandOrOneIsStale }
{}

/// Where all stand none is stale.
pub fn none_is_stale_where_all_stand()
    ensures { NoneIsStaleWhereAllStand }
{}

/// The first stale read, with what it saw and what is seen, is one.
pub fn the_first_stale_read_is_one()
    ensures { TheFirstStaleReadIsOne }
{}

/// Where a read of an honest run is stale, there was a commit since its claim.
pub fn stale_reads_tell_of_commits()
    ensures { StaleReadsTellOfCommits }
{}
