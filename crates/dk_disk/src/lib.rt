//! The two files of a store, and what a stop at any moment may leave of them.
//!
//! The layers above are generic over `Home` and cite what it says of reads, of images and of faults.
//! `MemoryHome` tells its content, fails where a test says so, and gives the images of a crash.
//! `HoldingHome` is one whose sync a test can hold. `FolderHome` is a trusted edge over a folder: it tells nothing, and counts each fault.
#![tactic(auto)]

pub use folder_home::FolderHome;
pub use holding_home::HoldingHome;
pub use home::Home;
pub use memory_home::MemoryHome;
pub use torn::{CrashRefused, Torn};

mod call_record;
mod drives;
pub mod folder_home;
pub mod holding_home;
pub mod home;
mod home_opening;
mod memory_file;
pub mod memory_home;
mod replay;
mod step;
pub mod torn;
mod undo_record;
mod unwinding;
