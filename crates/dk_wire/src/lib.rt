//! Fields as bytes, in both directions.
//!
//! Numbers, names, blobs and ids are put at the end of a `Writer` and taken from the front of a `Reader`. A field has
//! one spelling, no spelling begins another, and what is taken is exactly what was put. A format above is a `Form`:
//! fields one after another, rules between them, and counted lists, with no proof about bytes of its own. It knows no
//! format of a store or of a session.
#![tactic(auto)]

pub use dk_types::WireRefused;
pub use form::{Form, decode, encode, put_list, take_list};
pub use payload::PayloadRefused;
pub use reader::Reader;
pub use writer::Writer;

pub mod form;
pub mod laws;
pub mod payload;
pub mod reader;
mod reading;
pub mod writer;
