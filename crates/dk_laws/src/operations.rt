//! Operations on a run.
ghost use Rattle.dk_laws.specs.OperationsLaw.{OperationsAreLawful, CallsAreLawful, ModesArePutBack};

/// Each operation on objects, names, tasks and messages lets any run go on, and keeps a fit one fit.
pub fn operations_are_lawful()
    ensures { OperationsAreLawful }
{}

/// So does each call on sessions and channels.
pub fn calls_are_lawful()
    ensures { CallsAreLawful }
{}

/// A call that acts for the platform puts the mode back, however it ends.
pub fn modes_are_put_back()
    ensures { ModesArePutBack }
{}
