//! Timers.
ghost use Rattle.dk_examples.specs.TimerRows.{TimerBegins, TimerSkips, TimerGoesOn, TimerEnds, TimerIsOver, TimerFails, OnceFails};

/// The first run makes the counter and schedules the task, due 100 ms later.
pub fn timer_begins()
    ensures { TimerBegins }
{}

/// An occurrence that is run late skips those missed since: at 350 the next is due at 400.
pub fn timer_skips()
    ensures { TimerSkips }
{}

/// And run at 400 it is next due at 500.
pub fn timer_goes_on()
    ensures { TimerGoesOn }
{}

/// The third occurrence cancels its task, which has no next one then.
pub fn timer_ends()
    ensures { TimerEnds }
{}

/// A run of a task that is no longer pending does nothing, and ends well.
pub fn timer_is_over()
    ensures { TimerIsOver }
{}

/// A periodic occurrence that gives up is dropped, and the task stays for its next due moment.
pub fn timer_fails()
    ensures { TimerFails }
{}

/// A once-task that gives up is gone.
pub fn once_fails()
    ensures { OnceFails }
{}
