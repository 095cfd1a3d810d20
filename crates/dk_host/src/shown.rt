//! What shows why a call was refused.

use dk_notice::Notice;
use std::fmt::{Debug, Display};
use thiserror::Error;

/// A refusal, with a notice that shows what there was of faults of the home when it was told: whether they had stopped the
/// host, and at which count. `Closed` has the board that confirms it.
#[derive(Debug, Drop, Error)]
#[error_bound(E: Debug + Display)]
#[error("{refused}")]
pub struct Shown<E> {
    pub refused: E,
    pub notice: Notice,
}
