//! Histories.
ghost use Rattle.dk_laws.specs.HistoryLaws.{EventsLeadToOneWorld, WorldsStayValid, ClaimsStandReady, KeysDoNotReturn, NumbersAreNew, EachCommitWasClaimedOnce};

/// An event that may happen leads to one world.
pub fn events_lead_to_one_world()
    ensures { EventsLeadToOneWorld }
{}

/// A history keeps the durable world valid.
pub fn worlds_stay_valid()
    ensures { WorldsStayValid }
{}

/// A claimed run meets what its commit asks of it, for as long as it is claimed.
pub fn claims_stand_ready()
    ensures { ClaimsStandReady }
{}

/// The key of a once-task that was committed is never pending again.
pub fn keys_do_not_return()
    ensures { KeysDoNotReturn }
{}

/// A number that a durable world knows is never drawn again.
pub fn numbers_are_new()
    ensures { NumbersAreNew }
{}

/// A commit names a run with one claim before it, and no run is committed twice.
pub fn each_commit_was_claimed_once()
    ensures { EachCommitWasClaimedOnce }
{}
