//! Why a commit is refused, and why a checkpoint is.
ghost use Rattle.std.specs.Prelude.{◌≡◌};
ghost use Rattle.dk_journal.specs.Refusals.{IsAppendFault};
ghost use Rattle.dk_host.specs.Refusals.{IsWhyOfAppend, IsWhyOfLook};
ghost use Rattle.dk_host.specs.Checkpoints.{refusal_of};
ghost use Rattle.dk_host.specs.Tails.{refusal_of as tail_of};
ghost use Rattle.dk_host.specs.declared.refused.CheckpointRefused.TheVariants.{NoMemory as WantOfMemory};

use dk_checkpoint::CheckpointRefused as NotWritten;
use dk_commit_log::LogRefused;
use dk_core::{Claimed, PrepareRefused};
use dk_journal::JournalRefused;
use dk_types::{Item, NoMemory, Seen};
use thiserror::Error;

/// Why a run was not committed. The first cause in this order is told.
#[derive(Debug, Drop, PartialEq, Eq, Error)]
pub enum Why {
    /// The disk failed in an earlier commit or checkpoint, and `faults` was its count then. The store is to be opened
    /// again.
    #[error("stopped: the disk had failed {faults} times")]
    Stopped { faults: u64 },
    /// A read no longer stands: the first in the order of the reads, with what it saw and what is seen now. The job is to
    /// be run again.
    #[error("a read of {item:?} no longer stands")]
    Retry { item: Item, found: Seen, now: Seen },
    /// The journal would have this length, which is too long.
    #[error("the journal would have {length} bytes")]
    JournalFull { length: u64 },
    /// The disk failed in this call. The host commits no more.
    #[error("disk fault")]
    DiskFault,
    /// There was no memory. Nothing was written.
    #[error("out of memory")]
    NoMemory,
}

/// A commit that was refused. Nothing was entered, and the claim comes back.
#[derive(Debug, Drop, Error)]
#[error("not committed: {why}")]
pub struct CommitRefused {
    pub claimed: Claimed,
    pub why: Why,
}

/// Why a store was not written anew. The first cause in this order is told. But for `DiskFault`, nothing was written.
#[derive(Clone, Copy, Debug, Drop, PartialEq, Eq, Error)]
pub enum CheckpointRefused {
    /// The disk failed in an earlier commit or checkpoint, and `faults` was its count then.
    #[error("stopped: the disk had failed {faults} times")]
    Stopped { faults: u64 },
    /// The disk failed in this call. The host commits no more.
    #[error("disk fault")]
    DiskFault,
    /// The image would have this length, in bytes, which 32 bits do not hold.
    #[error("the image would have {length} bytes, more than 32 bits hold")]
    TooLarge { length: u64 },
    /// The store was written anew as often as its header can count.
    #[error("the store is in its last epoch, {epoch}")]
    EpochEnd { epoch: u64 },
    /// There was no memory.
    #[error("out of memory")]
    NoMemory,
}

impl From<NoMemory> for CheckpointRefused {
    ghost from_gives = { λ _ refused. refused ≡ WantOfMemory };

    fn from(_: NoMemory) -> CheckpointRefused {
        CheckpointRefused::NoMemory
    }
}

impl From<NotWritten> for CheckpointRefused {
    ghost from_gives = { λ not_written refused. refused ≡ refusal_of not_written };

    fn from(refused: NotWritten) -> CheckpointRefused {
        match refused {
            NotWritten::DiskFault => CheckpointRefused::DiskFault,
            NotWritten::TooLarge { length } => CheckpointRefused::TooLarge { length },
            NotWritten::EpochEnd { epoch } => CheckpointRefused::EpochEnd { epoch },
            NotWritten::NoMemory => CheckpointRefused::NoMemory,
        }
    }
}

/// Why commits were not read back. The first cause in this order is told. Nothing was written.
#[derive(Clone, Copy, Debug, Drop, PartialEq, Eq, Error)]
pub enum TailRefused {
    /// The disk failed in an earlier commit or checkpoint, and `faults` was its count then.
    #[error("stopped: the disk had failed {faults} times")]
    Stopped { faults: u64 },
    /// The journal begins with the entry of this number.
    #[error("the journal begins with commit {first}")]
    Older { first: u64 },
    /// The disk failed in this call. The host goes on.
    #[error("disk fault")]
    DiskFault,
    /// There was no memory.
    #[error("out of memory")]
    NoMemory,
    /// What stands at this place of the file is no record of the commits that should come next. A home that tells its
    /// content never has such.
    #[error("damaged at {at}")]
    Damaged { at: u64 },
}

impl From<LogRefused> for TailRefused {
    ghost from_gives = { λ log refused. refused ≡ tail_of log };

    fn from(refused: LogRefused) -> TailRefused {
        match refused {
            LogRefused::DiskFault => TailRefused::DiskFault,
            LogRefused::NoMemory => TailRefused::NoMemory,
            LogRefused::Damaged { at } => TailRefused::Damaged { at },
        }
    }
}

pub(crate) fn why_of_look(refused: PrepareRefused) -> Why
    ensures { IsWhyOfLook refused result }
{
    match refused {
        PrepareRefused::Retry(changed) => Why::Retry {
            item: changed.item,
            found: changed.found,
            now: changed.now,
        },
        PrepareRefused::NoMemory => Why::NoMemory,
    }
}

pub(crate) fn why_of_append(refused: JournalRefused) -> Why
    requires { IsAppendFault refused }
    ensures { IsWhyOfAppend refused result }
{
    match refused {
        JournalRefused::Full { length } => Why::JournalFull { length },
        _ => Why::DiskFault,
    }
}
