//! The calls on the map and the stores, whose keys are numbers here.

use crate::plain::first_difference;
use crate::stores::Store;
use dk_rows::{Subject, Words};
use std::alloc::Global;

/// A store, and the room that it had at the last mark.
#[derive(Drop)]
pub struct Kept<S: Drop> {
    store: S,
    marked: u64,
}

impl<S: Store + Drop> Kept<S> {
    /// This store, for rows to call.
    pub fn of(store: S) -> Kept<S> {
        Kept { store, marked: 0 }
    }

    fn entries(&self, alloc: Global) -> Option<String> {
        let mut text = String::new(alloc);
        for (key, stamp) in self.store.entries(alloc)? {
            let part = format!(in alloc; "{key} {stamp} ").ok()?;
            text.push_str(part.as_str()).ok()?;
        }
        Some(text)
    }

    /// The key after another, or after none where it is `-`.
    fn next(&self, alloc: Global, call: &mut Words<'_>) -> Option<String> {
        let after = match call.rest() {
            "-" => None,
            _ => Some(call.number()?),
        };
        numbered(alloc, self.store.next(alloc, after)?)
    }

    fn put(&mut self, alloc: Global, call: &mut Words<'_>) -> Option<String> {
        let key = call.number()?;
        let stamp = call.number()?;
        self.store.put(alloc, key, stamp)?;
        Some(String::new(alloc))
    }
}

impl<S: Store + Drop> Subject for Kept<S> {
    fn answer(&mut self, alloc: Global, call: &mut Words<'_>) -> Option<String> {
        match call.word()? {
            "reserve" => said(alloc, self.store.reserve(call.number()?)),
            "put" => self.put(alloc, call),
            "remove" => {
                self.store.remove(alloc, call.number()?)?;
                Some(String::new(alloc))
            }
            "get" => numbered(alloc, self.store.get(alloc, call.number()?)),
            "next" => self.next(alloc, call),
            "len" => numbered(alloc, Some(self.store.len())),
            "entries" => self.entries(alloc),
            "room-for" => said(alloc, self.store.spare() >= call.number()?),
            "mark" => {
                self.marked = self.store.spare();
                Some(String::new(alloc))
            }
            "spent" => numbered(alloc, Some(self.marked.checked_sub(self.store.spare())?)),
            "plain" => {
                let times = call.number()?;
                numbered(alloc, first_difference(alloc, &mut self.store, times))
            }
            _ => None,
        }
    }
}

/// A number, or none.
pub fn numbered(alloc: Global, number: Option<u64>) -> Option<String> {
    match number {
        Some(number) => format!(in alloc; "{number}").ok(),
        None => Some(String::new(alloc)),
    }
}

/// A fact, as rows have it.
pub fn said(alloc: Global, is: bool) -> Option<String> {
    let text = if is { "yes" } else { "no" };
    String::from_str(alloc, text).ok()
}
