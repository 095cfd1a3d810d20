//! The statuses.
ghost use Rattle.std.specs.Prelude.{◌≡◌, Some};
ghost use Rattle.dk_status.specs.Statuses.{code_of, side_digit, status_text};

use dk_types::{GameId, Side};
use std::fmt;

/// How a command ended.
#[derive(Clone, Copy, Debug, PartialEq, Eq)]
pub enum Status {
    /// It was done.
    Ok,
    NoMemory,
    /// The words are no command.
    Usage,
    /// A file of the store failed, or its folder.
    DiskFault,
    /// The source failed.
    ReadFault,
    /// The sink failed.
    WriteFault,
    /// The line of this number is the first that is no line of a script, or has the byte behind as many as a script may have.
    BadScript { line: u64 },
    /// The file of this side is no store from this place on, in bytes.
    NotAStore { side: Side, at: u64 },
    /// The record whose gate is at this place breaks a rule.
    Damaged { side: Side, at: u64 },
    /// The store is of another game.
    WrongGame { found: GameId },
    /// So many runs were committed, as many as the budget has, and something is left to run.
    Budget { granted: u64 },
    /// The next record does not fit into the journal, which has so many bytes.
    JournalFull { length: u64 },
    /// The listener failed, or no thread could be started.
    NetFault,
    /// A number is needed, and there is none from this one on.
    Exhausted { next: u64 },
    /// The world of a store of the old format has an image of so many bytes, which is too large for a new one.
    MigrateTooLarge { length: u64 },
    /// A store of the old format is in the last epoch, so that none is left for a new one.
    MigrateEpochEnd { epoch: u64 },
}

impl Status {
    /// The exit code of the program.
    pub fn code(&self) -> u8
        ensures { result ≡ code_of self.now }
    {
        match self {
            Status::Ok => 0,
            Status::NoMemory => 1,
            Status::Usage => 2,
            Status::DiskFault => 3,
            Status::ReadFault => 4,
            Status::WriteFault => 5,
            Status::BadScript { .. } => 6,
            Status::NotAStore { .. } => 7,
            Status::Damaged { .. } => 8,
            Status::WrongGame { .. } => 9,
            Status::Budget { .. } => 10,
            Status::JournalFull { .. } => 11,
            Status::NetFault => 12,
            Status::Exhausted { .. } => 13,
            Status::MigrateTooLarge { .. } => 16,
            Status::MigrateEpochEnd { .. } => 17,
        }
    }
}

/// The digit in the name of a side's file.
fn digit(side: Side) -> u8
    ensures { result ≡ side_digit side }
{
    match side {
        Side::Zero => 0,
        Side::One => 1,
    }
}

/// A game's id as text.
fn id_text(game: &GameId) -> &str
    ensures { result.now ≡ game.now }
{
    match std::str::from_utf8(game.as_slice()) {
        Ok(text) => text,
        Err(_) => unreachable!(),
    }
}

/// The line that the program prints of a fault, without its end.
impl fmt::Display for Status {
    ghost output = { λ status. Some (status_text status) };

    fn fmt<W: fmt::Write>(&self, f: &mut fmt::Formatter<W>) -> fmt::Result {
        match self {
            Status::Ok => f.write_str("darkstar: done"),
            Status::NoMemory => f.write_str("darkstar: out of memory"),
            Status::Usage => f.write_str("darkstar: usage"),
            Status::DiskFault => f.write_str("darkstar: disk fault"),
            Status::ReadFault => f.write_str("darkstar: read fault"),
            Status::WriteFault => f.write_str("darkstar: write fault"),
            Status::BadScript { line } => write!(f, "darkstar: bad script at line {line}"),
            Status::NotAStore { side, at } => {
                let file = digit(*side);
                write!(f, "darkstar: store.{file} is not a store, at {at}")
            }
            Status::Damaged { side, at } => {
                let file = digit(*side);
                write!(f, "darkstar: store.{file} is damaged, at {at}")
            }
            Status::WrongGame { found } => {
                let game = id_text(found);
                write!(f, "darkstar: the store is of game {game}")
            }
            Status::Budget { granted } => write!(f, "darkstar: budget of {granted} runs spent"),
            Status::JournalFull { length } => {
                write!(f, "darkstar: journal full at {length} bytes")
            }
            Status::NetFault => f.write_str("darkstar: network fault"),
            Status::Exhausted { next } => write!(f, "darkstar: numbers exhausted at {next}"),
            Status::MigrateTooLarge { length } => {
                write!(f, "darkstar: store too large to migrate, {length} bytes")
            }
            Status::MigrateEpochEnd { epoch } => {
                write!(f, "darkstar: epochs exhausted at {epoch}")
            }
        }
    }
}
