//! A history.
ghost use Rattle.sword_examples.specs.SwordHistories.{SwordHistory};

/// A login and a look of one client are run in their order, and what they send is handed.
pub fn sword_history()
    ensures { SwordHistory }
{}
