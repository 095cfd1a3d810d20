//! SwordWorld.
ghost use Rattle.sword_examples.specs.SwordRows.{SwordBegins, SwordLogin, SwordLook, SwordLookInOtherLetters, SwordDance, SwordLookAround, SwordTake, SwordTakeAgain, SwordDrop, SwordDropNothing, SwordLeave, SwordLoginAgain, DisplacingLength, SwordLengths};

/// The first run makes the sword and the room.
pub fn sword_begins()
    ensures { SwordBegins }
{}

/// A login makes a player, who enters the room.
pub fn sword_login()
    ensures { SwordLogin }
{}

/// A look tells the room and the sword.
pub fn sword_look()
    ensures { SwordLook }
{}

/// Letters of either case stand for the command.
pub fn sword_look_in_other_letters()
    ensures { SwordLookInOtherLetters }
{}

/// What is no command does nothing.
pub fn sword_dance()
    ensures { SwordDance }
{}

/// A look names the other players.
pub fn sword_look_around()
    ensures { SwordLookAround }
{}

/// A take gives the sword to the player.
pub fn sword_take()
    ensures { SwordTake }
{}

/// A second take changes nothing.
pub fn sword_take_again()
    ensures { SwordTakeAgain }
{}

/// A drop gives it back to the room.
pub fn sword_drop()
    ensures { SwordDrop }
{}

/// A drop of nothing changes nothing.
pub fn sword_drop_nothing()
    ensures { SwordDropNothing }
{}

/// The end of a session leaves the room, and the sword in it.
pub fn sword_leave()
    ensures { SwordLeave }
{}

/// A login of a connected name leaves the room as it was, and another record.
pub fn sword_login_again()
    ensures { SwordLoginAgain }
{}

/// The length of its entry, in bytes.
pub fn displacing_length()
    ensures { DisplacingLength }
{}

/// The lengths of these effects, in bytes.
pub fn sword_lengths()
    ensures { SwordLengths }
{}
