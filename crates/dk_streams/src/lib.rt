//! What a command reads and writes: a script from a source, a text into a sink, and what a server says meanwhile.
//!
//! `read_script` reads a source to its end as a script, and no further than a script may go. `put_all` puts a text into a sink
//! piece by piece. Both are over any streams, and tell a fault only where the stream's count of faults rose. `Announcing` is a
//! listener that says on standard error when it listens.
#![tactic(auto)]

pub use announcing::Announcing;
pub use reading::{Refused, read_script};
pub use writing::put_all;

pub mod announcing;
pub mod reading;
pub mod writing;
