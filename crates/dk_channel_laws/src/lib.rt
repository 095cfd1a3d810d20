//! The laws of channels: theorems about the definitions of `dk_model`, each the contract of a function
//! that does nothing.
//!
//! `leave_all` looks at all records first and saves them as one; the law says that this is what the members'
//! own leaves come to, one after another. Nothing here runs.
#![tactic(auto)]

ghost use Rattle.dk_channel_laws.specs.LeaveAllLaw.{LeaveAllIsEachLeave};

/// Where no member's leave would be refused, `leave_all` is not refused, and the run after it is the run after these leaves.
pub fn leaving_all_is_leaving_each()
    ensures { LeaveAllIsEachLeave }
{}
