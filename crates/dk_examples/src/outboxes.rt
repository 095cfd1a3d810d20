//! Outboxes.
ghost use Rattle.dk_examples.specs.OutboxRows.{AsManyWait, OneMoreCuts, OneMoreInTheRunCuts, CutGetsNoMore, HandGivesAll};

/// 4,096 messages of one run wait at a connection.
pub fn as_many_wait()
    ensures { AsManyWait }
{}

/// One more cuts it.
pub fn one_more_cuts()
    ensures { OneMoreCuts }
{}

/// One more of the same run cuts it too.
pub fn one_more_in_the_run_cuts()
    ensures { OneMoreInTheRunCuts }
{}

/// A connection that was cut gets no more.
pub fn cut_gets_no_more()
    ensures { CutGetsNoMore }
{}

/// What waited when it was cut is handed all the same.
pub fn hand_gives_all()
    ensures { HandGivesAll }
{}
