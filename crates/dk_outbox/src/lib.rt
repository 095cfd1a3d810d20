//! The messages that wait for one connection, in the order in which commits sent them.
//!
//! The core keeps one outbox a connection. Where as many messages wait as may, a further one is
//! dropped and the answer says so. The room of a message is made before it is put in: by
//! `reserve`, or by a `Ready`, which carries its room along.
#![tactic(auto)]

pub use outbox::Outbox;
pub use ready::Ready;

pub mod outbox;
pub mod ready;
