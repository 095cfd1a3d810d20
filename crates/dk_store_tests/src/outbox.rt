//! The calls on an outbox, whose messages are numbered as they are put.

use crate::kept::{numbered, said};
use dk_outbox::{Outbox, Ready};
use dk_rows::{Subject, Words};
use dk_types::{Blob, Listed, Out};
use std::alloc::Global;

/// An outbox, the number of the next message, and the room at the last mark.
#[derive(Drop)]
pub struct Post {
    outbox: Outbox,
    next: u64,
    marked: u64,
}

/// A message that tells its number.
fn message(alloc: Global, n: u64) -> Option<Out> {
    let body = Blob::copy_of(alloc, &n.to_be_bytes()).ok()?;
    Some(Out::Message(body))
}

/// The number that a message tells.
fn number_of(out: &Out) -> Option<u64> {
    match out {
        Out::Message(body) => {
            let bytes = <[u8; 8]>::try_from(body.as_slice()).ok()?;
            Some(u64::from_be_bytes(bytes))
        }
        _ => None,
    }
}

impl Post {
    /// This outbox, for rows to call.
    pub fn of(outbox: Outbox) -> Post {
        Post {
            outbox,
            next: 0,
            marked: 0,
        }
    }

    /// Puts the next message last, and tells whether it was kept.
    fn push(&mut self, alloc: Global) -> Option<bool> {
        let out = message(alloc, self.next)?;
        self.next = self.next.saturating_add(1);
        if self.outbox.spare() == 0 {
            return None;
        }
        Some(self.outbox.push(out))
    }

    /// The same with a message that brings its room.
    fn push_ready(&mut self, alloc: Global) -> Option<bool> {
        let ready = Ready::new(alloc, message(alloc, self.next)?).ok()?;
        self.next = self.next.saturating_add(1);
        Some(self.outbox.push_ready(ready))
    }

    fn push_many(&mut self, alloc: Global, times: u64) -> Option<bool> {
        let mut kept = true;
        for _ in 0..times {
            kept = self.push(alloc)? && kept;
        }
        Some(kept)
    }

    /// How many messages are handed, and the numbers of the first and the last.
    fn hand(&mut self, alloc: Global, most: u32) -> Option<String> {
        let handed = self.outbox.hand(most).ok()?;
        let outs = handed.as_slice();
        let (Some(first), Some(last)) = (outs.first(), outs.last()) else {
            return Some(String::new(alloc));
        };
        let (first, last) = (number_of(first)?, number_of(last)?);
        format!(in alloc; "{} from {first} to {last}", outs.len()).ok()
    }
}

impl Subject for Post {
    fn answer(&mut self, alloc: Global, call: &mut Words<'_>) -> Option<String> {
        match call.word()? {
            "reserve" => said(alloc, self.outbox.reserve(call.number()?).is_ok()),
            "room-for" => said(alloc, self.outbox.spare() >= call.number()?),
            "mark" => {
                self.marked = self.outbox.spare();
                Some(String::new(alloc))
            }
            "spent" => numbered(alloc, Some(self.marked.checked_sub(self.outbox.spare())?)),
            "len" => numbered(alloc, Some(self.outbox.len())),
            "full" => said(alloc, self.outbox.is_full()),
            "push" => said(alloc, self.push_many(alloc, call.number()?)?),
            "push-ready" => said(alloc, self.push_ready(alloc)?),
            "hand" => self.hand(alloc, call.small()?),
            "plain" => {
                let times = call.number()?;
                numbered(alloc, first_difference(alloc, self, times))
            }
            _ => None,
        }
    }
}

/// Takes the first numbers off, `most` of them or all, and tells whether they are those that were handed.
fn is_handed(list: &mut Vec<u64>, handed: &Listed<Out>, most: u64) -> bool {
    for out in handed.as_slice() {
        if list.is_empty() || number_of(out) != Some(list.remove(0)) {
            return false;
        }
    }
    handed.as_slice().len() as u64 == most || list.is_empty()
}

/// One operation on both, chosen by its number. Whether both answer alike.
fn step(alloc: Global, post: &mut Post, list: &mut Vec<u64>, n: u64) -> Option<bool> {
    post.next = n;
    let alike = match n % 7 {
        0 | 1 | 2 => {
            list.push(n).ok()?;
            post.push(alloc)?
        }
        3 | 4 => {
            list.push(n).ok()?;
            post.push_ready(alloc)?
        }
        _ => {
            let handed = post.outbox.hand((n % 4) as u32).ok()?;
            is_handed(list, &handed, n % 4)
        }
    };
    Some(
        alike
            && post.outbox.len() == list.len() as u64
            && post.outbox.is_empty() == list.is_empty(),
    )
}

/// The first of so many operations after which outbox and list differ; the number itself where none does.
fn first_difference(alloc: Global, post: &mut Post, times: u64) -> Option<u64> {
    let mut list = Vec::new(alloc);
    for n in 0..times {
        if !step(alloc, post, &mut list, n)? {
            return Some(n);
        }
    }
    Some(times)
}
