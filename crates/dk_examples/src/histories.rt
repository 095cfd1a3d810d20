//! Histories.
ghost use Rattle.dk_examples.specs.HistoryRows.{TimerHistory, SecondLoginHistory, RestartHistory};

/// A task is claimed once its moment has come, and goes on until it is cancelled.
pub fn timer_history()
    ensures { TimerHistory }
{}

/// A second login of a connected name displaces the first, whose connection is gone once its messages are handed.
pub fn second_login_history()
    ensures { SecondLoginHistory }
{}

/// After a stop a recorded session is told of its end.
pub fn restart_history()
    ensures { RestartHistory }
{}
