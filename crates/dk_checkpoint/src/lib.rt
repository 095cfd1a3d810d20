//! Writing a store anew: the image of its world first in the other file, which then stands.
//!
//! The file that stands is left as it is, and stands until the new one has its image on the disk and its header's gate is
//! opened. So a stop at any moment leaves the world from before or the given one. The layer above gives the world that
//! the store has, and goes on with the journal that it is handed.
#![tactic(auto)]

pub use refused::CheckpointRefused;
pub use writing::checkpoint;

pub mod refused;
pub mod writing;
