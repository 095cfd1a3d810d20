//! What is told.

/// What is told of a device's faults.
#[derive(Clone, Copy, Debug, Drop, PartialEq, Eq)]
pub struct Told {
    /// The device's count of faults.
    pub counted: u64,
    /// Where all came to an end by a fault, the count at that one.
    pub stopped: Option<u64>,
}
