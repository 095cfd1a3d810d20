// Where a connection stands among those whose first input can be run.

use dk_types::ConnNo;

/// A connection's place: those whose first input can be run come first, then those of lesser turns, then those of lesser
/// numbers.
#[derive(Clone, Copy, PartialEq, Eq, PartialOrd, Ord)]
pub struct ConnectionRank {
    pub idle: bool,
    pub turn: u64,
    pub conn: ConnNo,
}
