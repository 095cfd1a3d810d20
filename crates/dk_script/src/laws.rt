//! Laws of scripts and transcripts. The functions do nothing; their contracts are the theorems.
ghost use Rattle.dk_script.specs.OrderLaw.{OrderIsTold};
ghost use Rattle.dk_script.specs.ScriptLaws.{OneWorkerDecides, ScriptsAreRead};

/// The claims and commits of each phase can be read back from the transcript, whatever its events.
pub fn order_is_told()
    ensures { OrderIsTold }
{}

/// A text is at most one script, and has at most one line that is told as the first outside, and not both.
pub fn scripts_are_read()
    ensures { ScriptsAreRead }
{}

/// Where each run is committed before the next is claimed, the rules, the opening world and the script alone decide the
/// transcript.
pub fn one_worker_decides()
    ensures { OneWorkerDecides }
{}
