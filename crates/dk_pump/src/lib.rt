//! Sessions: a client's bytes become events of the shared host, and what the host hands becomes bytes for the client.
//!
//! `greet` reads a client's LOGIN and connects it. `read_session` posts what its further frames ask, and a Disconnect at
//! the end; `write_session` puts the frames of what the connection is handed, until the connection is gone. Each takes a
//! pass of its own, so a reader and a writer of one session run side by side. `SessionFuture` is both over one link, as a
//! future with one pass, and gives a `SessionDone`, which a `Tally` counts. A `Place` runs such futures one after another, on
//! the links that it takes at the `Door`, where the listener is behind a lock; a ledger ties how many links were given to
//! what the places have counted. `keep_time` ticks the host meanwhile. Nothing here runs a job: what the thread of a place does
//! where its session posted something and can not go on, its `Help`, is its caller's.
#![tactic(auto)]

pub use arrivals::{Accepting, Arrivals, Doorway, NoLink};
pub use done::SessionDone;
pub use door::Door;
pub use ends::{BadFrame, SessionEnd, WriteEnd};
pub use future::SessionFuture;
pub use greeting::{Greeted, greet};
pub use helped::Help;
pub use link_count::LinkCount;
pub use place::{Place, PlaceDone, PlaceEnd};
pub use reading::read_session;
pub use tally::Tally;
pub use ticker::keep_time;
pub use writing::write_session;

mod arrivals;
mod closing;
mod course;
mod done;
mod door;
pub mod ends;
mod future;
pub mod greeting;
mod helped;
pub mod limits;
mod link_count;
mod outgoing;
mod pieces;
mod place;
mod polling;
mod posting;
mod putting;
pub mod reading;
mod session;
mod tally;
mod ticker;
mod watched;
pub mod writing;
