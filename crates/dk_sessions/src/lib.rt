//! Client sessions: records that are managed objects, each bound under the login name with `$s.` before it.
//!
//! A session is known by its name and its connection's number. Who logs in again under a name gets another number, and
//! calls with the old one refuse what they would do. How a game is proved with these calls stands in
//! `docs/TRANSACTIONS.md`.
#![tactic(auto)]

pub use dk_refs::{is_recorded, own_record, record_if_connected, session_name};
pub use opening::{close_record, open_record};
pub use records::{find, is_connected};
pub use sending::send;

pub mod opening;
pub mod records;
pub mod sending;
