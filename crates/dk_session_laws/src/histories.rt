//! Which sessions count.
ghost use Rattle.dk_session_laws.specs.SessionsLaw.{FreshSessionsCount, SessionsStayCounted, LegalSessionsCount, OpeningsConnect, StoresCount};

/// Before the first run every session counts.
pub fn fresh_sessions_count()
    ensures { FreshSessionsCount }
{}

/// Every session counts after each history from an opening of a world in which every one does.
pub fn sessions_stay_counted()
    ensures { SessionsStayCounted }
{}

/// So it is after each legal history.
pub fn legal_sessions_count()
    ensures { LegalSessionsCount }
{}

/// At the opening of a world each record that counts has a connection of its own: cut and closed, with its end waiting.
pub fn openings_connect()
    ensures { OpeningsConnect }
{}

/// In a store that only games wrote whose rules keep the sessions, every session counts.
pub fn stores_count()
    ensures { StoresCount }
{}
