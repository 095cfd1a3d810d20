//! The journal of a store: payloads in one file of a home, each put behind the last.
//!
//! A record counts where its gate is open and all before it count. `create` makes an empty journal, `append` puts one
//! payload last, `open` and `Scan` read them back, each by itself or out of a `Window`. An append writes the record behind
//! the closed gate, and opens the gate once the record is on the disk. So a stop at any moment leaves the payloads of
//! before, or one more. What the payloads mean is not known here.
#![tactic(auto)]

pub use header::{FORMAT, Header, header_fields_of};
pub use journal::Journal;
pub use making::create;
pub use opening::open;
pub use refused::JournalRefused;
pub use scan::Scan;
pub use window::Window;
pub use writing::{close, write_anew};

pub mod header;
pub mod journal;
pub mod making;
pub mod opening;
pub mod refused;
pub mod scan;
pub mod window;
pub mod writing;
