//! The commits of a store, read back from the file that stands.
//!
//! Behind its header a store's file has the image of a world, but in the first epoch, and then the entries of the commits
//! that came after it. `commits_before` says how many commits the image has, and `read_commits` gives the entries of some
//! numbers behind it. Nothing here writes, and the file is not asked whether its entries fit the world before them.
#![tactic(auto)]

pub use reading::{commits_before, read_commits};
pub use refused::LogRefused;

pub mod range;
pub mod reading;
pub mod refused;
