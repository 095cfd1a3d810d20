//! What the counters come to.
ghost use Rattle.dk_demos.specs.CountersTotals.{CountersComeToTotals};

/// Where nobody connects, a history that comes to rest has committed the first run and each task once, and each counter was
/// raised as often as it is in the generated list.
pub fn counters_come_to_totals()
    ensures { CountersComeToTotals }
{}
