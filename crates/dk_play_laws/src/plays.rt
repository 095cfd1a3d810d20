//! Plays by several passes.
ghost use Rattle.dk_play_laws.specs.AloneLaw.{OnePassIsAlone};
ghost use Rattle.dk_play_laws.specs.BegunLaw.{AllPhasesAreFirst, BegunIsSeen, BegunPhasesAreFirst, BegunStandsOn, NothingIsEntered, PhasesAreEntered};
ghost use Rattle.dk_play_laws.specs.WorkedLaw.{OneWorkerIsInTurn, WorkersLeaveNoClaim};
ghost use Rattle.dk_play_laws.specs.BudgetLaw.{NumbersEndAtOne, SpentBudgetsAreCommitted};
ghost use Rattle.dk_play_laws.specs.PhasedLaw.{DrainsEndTheirClaims, NothingIsPlayed, PhasesFollow, PlaysAreSeen, PlaysStandOn, SpentIsSeen, SpentPhasesEnd};
ghost use Rattle.dk_play_laws.specs.Reported.{SilentClaimsPrintNothing};

/// Claims that were granted nothing print nothing.
pub fn silent_claims_print_nothing()
    ensures { SilentClaimsPrintNothing }
{}

/// What one pass enters while the others stand still is all that is entered.
pub fn one_pass_is_alone()
    ensures { OnePassIsAlone }
{}

/// Workers that end all that they claim leave no run claimed, and their events follow their own order.
pub fn workers_leave_no_claim()
    ensures { WorkersLeaveNoClaim }
{}

/// One worker commits each run before it claims the next.
pub fn one_worker_is_in_turn()
    ensures { OneWorkerIsInTurn }
{}

/// A drain ends what was claimed in it.
pub fn drains_end_their_claims()
    ensures { DrainsEndTheirClaims }
{}

/// One phase more is played.
pub fn phases_follow()
    ensures { PhasesFollow }
{}

/// Nothing is played at first.
pub fn nothing_is_played()
    ensures { NothingIsPlayed }
{}

/// A budget that is spent was committed.
pub fn spent_budgets_are_committed()
    ensures { SpentBudgetsAreCommitted }
{}

/// A phase in which the budget is spent ends the play.
pub fn spent_phases_end()
    ensures { SpentPhasesEnd }
{}

/// What stands between two phases stands on where the main pass enters nothing.
pub fn plays_stand_on()
    ensures { PlaysStandOn }
{}

/// At the end the main pass has seen the whole history, so it is a play.
pub fn plays_are_seen()
    ensures { PlaysAreSeen }
{}

/// And where the budget was spent, it is spent after the whole history.
pub fn spent_is_seen()
    ensures { SpentIsSeen }
{}

/// No number is told to be left where numbers have come to their end.
pub fn numbers_end_at_one()
    ensures { NumbersEndAtOne }
{}

/// Nothing is entered for a script at first.
pub fn nothing_is_entered()
    ensures { NothingIsEntered }
{}

/// One phase more is entered, whatever workers do between.
pub fn phases_are_entered()
    ensures { PhasesAreEntered }
{}

/// Phases, and then one that was begun, are a first part of a script.
pub fn begun_phases_are_first()
    ensures { BegunPhasesAreFirst }
{}

/// All phases are a first part of their script.
pub fn all_phases_are_first()
    ensures { AllPhasesAreFirst }
{}

/// What was begun stands while passes enter claims, commits and releases alone.
pub fn begun_stands_on()
    ensures { BegunStandsOn }
{}

/// At the end the events that are no claims, commits and releases are the main pass's, and a first part of the script.
pub fn begun_is_seen()
    ensures { BegunIsSeen }
{}
