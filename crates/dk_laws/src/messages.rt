//! Messages.
ghost use Rattle.dk_laws.specs.MessagesLaw.{MessagesAreHanded, BodiesAreShort, RunsSendFew, LoginsAreAnswered, TheDisplacedAreClosed};

/// What was handed to a connection, and then what waits for it, is what the commits sent to it.
pub fn messages_are_handed()
    ensures { MessagesAreHanded }
{}

/// What was handed, and what waits, has no body that is too long.
pub fn bodies_are_short()
    ensures { BodiesAreShort }
{}

/// A run sends at most 65,536 messages.
pub fn runs_send_few()
    ensures { RunsSendFew }
{}

/// A login that ends well is told that it is accepted; one that fails, that it is refused and closed, and nothing else is sent.
pub fn logins_are_answered()
    ensures { LoginsAreAnswered }
{}

/// A login that ends well closes the connection of the session that had its name.
pub fn the_displaced_are_closed()
    ensures { TheDisplacedAreClosed }
{}
