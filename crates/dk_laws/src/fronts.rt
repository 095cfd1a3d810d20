//! What a pass has seen of a history that goes on.
ghost use Rattle.dk_laws.specs.FrontsLaw.{FrontsAreLegal, ClaimsStandOn, HonestRunsStayHonest, CommitsAreCounted, CommitsAloneChange, ValidRunsStayValid, ChangesTellOfCommits, HandedFromTheFirst};

/// What a legal history begins with is legal.
pub fn fronts_are_legal()
    ensures { FrontsAreLegal }
{}

/// A claim that stands at its pass's front stands wherever the history goes on without that pass.
pub fn claims_stand_on()
    ensures { ClaimsStandOn }
{}

/// An honest run stays honest as the history goes on.
pub fn honest_runs_stay_honest()
    ensures { HonestRunsStayHonest }
{}

/// The durable world has as many commits as at the opening, and one for each Commit.
pub fn commits_are_counted()
    ensures { CommitsAreCounted }
{}

/// What is read changes at commits alone.
pub fn commits_alone_change()
    ensures { CommitsAloneChange }
{}

/// A run whose reads were found to stand is valid still where no commit came since.
pub fn valid_runs_stay_valid()
    ensures { ValidRunsStayValid }
{}

/// Where an honest read no longer stands, there was a commit since the claim.
pub fn changes_tell_of_commits()
    ensures { ChangesTellOfCommits }
{}

/// What was handed to a connection is a beginning of what the commits sent to it.
pub fn handed_from_the_first()
    ensures { HandedFromTheFirst }
{}
