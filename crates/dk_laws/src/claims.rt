//! What claims take.
ghost use Rattle.dk_laws.specs.ClaimsLaw.{SomethingIsPicked, NothingIsPicked, ClaimsAreGranted, ClaimsAreAnswered};

/// Where something can be run, a job is picked, one of those that can.
pub fn something_is_picked()
    ensures { SomethingIsPicked }
{}

/// Where nothing can be run, no job is picked.
pub fn nothing_is_picked()
    ensures { NothingIsPicked }
{}

/// Where something can be run, and the budget and the numbers have one left, a claim is granted.
pub fn claims_are_granted()
    ensures { ClaimsAreGranted }
{}

/// Every claim has an answer.
pub fn claims_are_answered()
    ensures { ClaimsAreAnswered }
{}
