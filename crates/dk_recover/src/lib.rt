//! The durable world of a store, from its two files.
//!
//! `recover` is the one call for who opens a store: it syncs both files, finds the one that stands, and gives its durable
//! world and its journal, or why there is none. The other calls are its parts: `world_of_image` is the world of an image,
//! `after_payload` the one after a record of entries, each exactly where the payload spells what fits, and `read_store`
//! reads all records of a file. Whether an entry fits is tested in time that grows with the entry alone. Nothing here
//! writes, or runs a game.
#![tactic(auto)]

pub use fault::OpenFault;
pub use reading::{after_payload, world_of_image};
pub use records::{first_world, next_world, read_records, read_store};
pub use recovery::{Recovered, recover};
pub use standing::{Standing, find_standing};
pub use world::{Unfit, World};

mod changes;
pub mod fault;
pub mod laws;
mod listing;
pub mod reading;
pub mod records;
pub mod recovery;
pub mod standing;
mod tasks;
pub mod world;
