//! A command with its values, and the names of the games.
ghost use Rattle.std.specs.Prelude.{◌≡◌};
ghost use Rattle.dk_command.specs.Games.{game_of_word, word_of};

/// A game that is shipped with the program.
#[derive(Clone, Copy, Debug, PartialEq, Eq)]
pub enum GameName {
    SwordWorld,
    Timer,
    Channels,
}

impl GameName {
    /// The word that names it.
    pub fn word(self) -> &'static str
        ensures { result.now ≡ word_of self }
    {
        match self {
            GameName::SwordWorld => "sword-world",
            GameName::Timer => "timer",
            GameName::Channels => "channels",
        }
    }

    /// The game that this word names.
    pub fn of_word(word: &str) -> Option<GameName>
        ensures { result ≡ game_of_word word.now }
    {
        match word {
            "sword-world" => Some(GameName::SwordWorld),
            "timer" => Some(GameName::Timer),
            "channels" => Some(GameName::Channels),
            _ => None,
        }
    }
}

/// What the program is to do. A store is the folder `dir`.
#[derive(Debug, Drop)]
pub enum Command {
    /// Plays the script that standard input has.
    Play {
        dir: String,
        game: GameName,
        workers: u8,
        /// The most runs that are committed.
        budget: u64,
        /// Makes a checkpoint after the last phase.
        checkpoint: bool,
    },
    /// Serves clients over TCP.
    Serve {
        dir: String,
        port: u16,
        game: GameName,
        workers: u8,
        /// The most clients at one time.
        clients: u16,
        /// After how many sessions it ends, if it is to end.
        sessions: Option<u64>,
    },
    /// Tells whether the store is whole.
    Check {
        dir: String,
        game: GameName,
    },
    /// Tells the store's world as text.
    Inspect {
        dir: String,
        game: GameName,
    },
    /// Runs tasks on a world that the seed decides.
    Stress {
        seed: u32,
        tasks: u32,
        workers: u8,
    },
}
