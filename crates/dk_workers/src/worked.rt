//! Why a worker comes to an end.

/// Why a worker came to an end. Each is the answer of that name that a call of the host gave it.
#[derive(Clone, Copy, Debug, PartialEq, Eq)]
pub enum Worked {
    /// Nothing can be run.
    Idle,
    /// The budget's claims are granted; `granted` is how many.
    Spent { granted: u64 },
    /// Every number below 2^62 is drawn; `next` is the next one.
    Exhausted { next: u64 },
    /// The disk failed in a commit of this worker. The host commits no more.
    DiskFault,
    /// The disk failed in an earlier commit, and `faults` was its count then.
    Stopped { faults: u64 },
    /// The journal would have this length, which is too long.
    JournalFull { length: u64 },
    NoMemory,
}
