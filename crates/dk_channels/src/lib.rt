//! Channels: who is on them, and what is sent on them.
//!
//! A channel is a managed object of the platform's own kind, bound under a platform name, and each member's session names the
//! channels that it is on. So channels live and die with transactions, and survive a stop with everything else. The calls act
//! for the platform, whoever makes them. A job's own part of a channel is played by the crate above.
#![tactic(auto)]

pub use channel::{Channel, create_channel, get_channel, members, record_of, recorded};
pub use dk_refs::{ChannelRecord, Delivery};
pub use joining::join;
pub use leaving::{leave, leave_all};
pub use lists::is_member;
pub use sending::send;

pub mod channel;
pub mod joining;
pub mod leaving;
pub mod lists;
mod saving;
pub mod sending;
