//! A world that comes to rest: where no game schedules tasks, each run leaves less to run. No body computes
//! anything: each contract is a law of the model, cited by those who run jobs until none is left.
#![tactic(auto)]

ghost use Rattle.dk_progress.specs.ProgressLaws.{FreshIsFit, ConnectsFit, PostsFit, TicksFit, RunsLeaveLess, ClaimsAreGranted, HandsTakeAll};

/// A world that nothing has happened to is fit, where numbers are enough for the first run and all that is to come.
pub fn fresh_is_fit()
    ensures { FreshIsFit }
{}

/// A connect of a fit world draws a number, and its login is all that it adds.
pub fn connects_fit()
    ensures { ConnectsFit }
{}

/// A post adds one input at most.
pub fn posts_fit()
    ensures { PostsFit }
{}

/// A tick adds nothing that could be run, where there are no tasks.
pub fn ticks_fit()
    ensures { TicksFit }
{}

/// A claimed run that is committed leaves less to run than before its claim, where the rules are lawful and terse.
pub fn runs_leave_less()
    ensures { RunsLeaveLess }
{}

/// A claim is granted, or nothing is left to run.
pub fn claims_are_granted()
    ensures { ClaimsAreGranted }
{}

/// A hand of as many messages as may wait takes all.
pub fn hands_take_all()
    ensures { HandsTakeAll }
{}
