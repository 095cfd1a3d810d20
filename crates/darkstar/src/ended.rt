//! How a command on a store ended.

use dk_status::Status;

/// The status, and the home that the command was given.
#[derive(Drop)]
pub struct Ended<M> {
    pub status: Status,
    pub home: M,
}
