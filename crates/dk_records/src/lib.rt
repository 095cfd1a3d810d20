//! The platform's records as bytes, and the forms of fields that records are made of.
//!
//! A session's record and a channel's record are managed objects of the platform's own kinds. The
//! layer of references keeps them as values; a game makes the forms of its own records of the same
//! parts. Nothing here reads or changes a world.
#![tactic(auto)]

pub use channels::{ChannelForm, encode_channel};
pub use fields::{IdForm, NameForm};
pub use sessions::{SessionForm, encode_session};

pub mod channels;
pub mod fields;
pub mod sessions;
