//! Sessions.
ghost use Rattle.dk_examples.specs.SessionRows.{FirstRunAccepts, LoginIsAccepted, SecondLoginDisplaces, CountsGoOn, TurnedAwayLoginStays, LoginOverNoRecordFails, LongLoginFails, GivenUpLoginFails, StrangeMessageIsNothing, DisconnectEnds, StopEnds};

/// The first run of a game that makes nothing.
pub fn first_run_accepts()
    ensures { FirstRunAccepts }
{}

/// A login's session is recorded, and accepted.
pub fn login_is_accepted()
    ensures { LoginIsAccepted }
{}

/// A second login of a connected name displaces the first: the old connection is closed, and the new one recorded.
pub fn second_login_displaces()
    ensures { SecondLoginDisplaces }
{}

/// What is made and sent is counted on over both parts of the game.
pub fn counts_go_on()
    ensures { CountsGoOn }
{}

/// A login that the game turns away leaves the session that it would have displaced.
pub fn turned_away_login_stays()
    ensures { TurnedAwayLoginStays }
{}

/// A login over a name that leads to no session's record fails.
pub fn login_over_no_record_fails()
    ensures { LoginOverNoRecordFails }
{}

/// A login whose name is too long for a record's name fails.
pub fn long_login_fails()
    ensures { LongLoginFails }
{}

/// A login that the game gives up leaves no record, and is refused and closed.
pub fn given_up_login_fails()
    ensures { GivenUpLoginFails }
{}

/// A message of another connection under a connected name does nothing.
pub fn strange_message_is_nothing()
    ensures { StrangeMessageIsNothing }
{}

/// The end of a session takes its record and its name away.
pub fn disconnect_ends()
    ensures { DisconnectEnds }
{}

/// So does the end that a stop left.
pub fn stop_ends()
    ensures { StopEnds }
{}
