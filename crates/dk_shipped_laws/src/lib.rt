//! The laws of the stores that the shipped games write: that every session record of such a store counts
//! when it is opened. Each is the contract of a function that does nothing.
//!
//! The rules are shown to keep the sessions one step after another, by the lemmas of `dk_session_laws`.
#![tactic(auto)]

ghost use Rattle.dk_shipped_laws.specs.Shipped.{ShippedGamesKeepSessions, ShippedStoresCount};

/// The rules of each shipped game leave the sessions as they were, but for the channels that these are on.
pub fn shipped_games_keep_sessions()
    ensures { ShippedGamesKeepSessions }
{}

/// In a store that only shipped games wrote, through any number of stops, every session counts.
pub fn shipped_stores_count()
    ensures { ShippedStoresCount }
{}
