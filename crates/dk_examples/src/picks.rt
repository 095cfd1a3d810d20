//! Picks, posts and names.
ghost use Rattle.dk_examples.specs.PickRows.{PicksInTurn, TiesGoByKey, ClaimedIsNotRunnable, FullQueueRefuses, QueueTakes, DisconnectIsTaken, ClosedTakesNothing, NamesInOrder};

/// Due tasks and inputs take turns; the soonest task and the input of the least turn go.
pub fn picks_in_turn()
    ensures { PicksInTurn }
{}

/// Of tasks that are due together the one of the least key goes.
pub fn ties_go_by_key()
    ensures { TiesGoByKey }
{}

/// What is claimed is not runnable.
pub fn claimed_is_not_runnable()
    ensures { ClaimedIsNotRunnable }
{}

/// The 1,025th input of a connection is not taken.
pub fn full_queue_refuses()
    ensures { FullQueueRefuses }
{}

/// One of the first 1,024 is.
pub fn queue_takes()
    ensures { QueueTakes }
{}

/// A Disconnect is taken however many wait.
pub fn disconnect_is_taken()
    ensures { DisconnectIsTaken }
{}

/// A closed connection takes nothing.
pub fn closed_takes_nothing()
    ensures { ClosedTakesNothing }
{}

/// The next name after each of a, ab, b and aa.
pub fn names_in_order()
    ensures { NamesInOrder }
{}
