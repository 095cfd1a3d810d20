//! Channels.
ghost use Rattle.dk_examples.specs.ChannelRows.{ChannelsBegin, LoginJoins, UnheardGoesToAll, HeardGoesToTheGame, NoChannelIsNothing, JoinOfNoChannelFails, DisconnectLeaves};

/// The first run makes two channels.
pub fn channels_begin()
    ensures { ChannelsBegin }
{}

/// A login joins both: the channels' records and the session's are written.
pub fn login_joins()
    ensures { LoginJoins }
{}

/// A message on a channel without a listener goes to each member in joining order.
pub fn unheard_goes_to_all()
    ensures { UnheardGoesToAll }
{}

/// One on a channel with a listener goes to the game alone.
pub fn heard_goes_to_the_game()
    ensures { HeardGoesToTheGame }
{}

/// One on a channel that is not there does nothing.
pub fn no_channel_is_nothing()
    ensures { NoChannelIsNothing }
{}

/// A game that joins a channel that is not there is refused.
pub fn join_of_no_channel_fails()
    ensures { JoinOfNoChannelFails }
{}

/// The end of a session leaves its channels before its record goes.
pub fn disconnect_leaves()
    ensures { DisconnectLeaves }
{}
