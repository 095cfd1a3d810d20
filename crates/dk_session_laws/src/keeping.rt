//! What operations, calls and steps do to the sessions.
ghost use Rattle.dk_session_laws.specs.KeepingLaw.{OperationsKeepSessions, CallsKeepSessions, RecordsOpenAndClose, StepsLead};

/// In a game's mode each operation on objects, names, tasks and messages leaves the sessions as they were.
pub fn operations_keep_sessions()
    ensures { OperationsKeepSessions }
{}

/// So does each call on sessions and channels that a game makes: it changes at most the channels of a record.
pub fn calls_keep_sessions()
    ensures { CallsKeepSessions }
{}

/// A record that is opened brings one number, and one that is closed brings none.
pub fn records_open_and_close()
    ensures { RecordsOpenAndClose }
{}

/// A step by rules that keep the sessions leads to sessions that stand, and opens at most its own login's number.
pub fn steps_lead()
    ensures { StepsLead }
{}
