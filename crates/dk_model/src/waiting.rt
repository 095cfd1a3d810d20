//! What waits at a connection.

use dk_types::Input;

/// The login that a connection begins with, or an input that was posted to it.
#[derive(Clone, Debug, Drop, PartialEq, Eq)]
pub enum Waiting {
    Login,
    Input(Input),
}
