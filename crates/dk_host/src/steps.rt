//! The calls of the core as steps of the turn: each notes its event behind the history, where it has one.

mod commits;
mod connections;
mod copies;
mod events;
mod runs;

pub(crate) use commits::{Prepare, Publish};
pub(crate) use connections::{Connect, Hand, Post};
pub(crate) use copies::{CopyLast, CopyWorld, CountLast, Glance};
pub(crate) use events::{CountKept, ReadItem, Tick};
pub(crate) use runs::{Claim, Release};

/// A call by a pass: what was asked, and what was answered.
#[derive(Drop)]
pub(crate) struct Call<'a, A, T> {
    pub(crate) pass: u32,
    pub(crate) ask: &'a A,
    pub(crate) reply: &'a T,
}
