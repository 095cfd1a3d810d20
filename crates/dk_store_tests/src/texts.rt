//! The names' store with names of any length, which are walked by their bytes.

use crate::kept::numbered;
use dk_names::Names;
use dk_rows::{Subject, Words};
use dk_types::{Name, ObjectId, RunNo};
use std::alloc::Global;

/// Names, each bound to the first object of a run.
#[derive(Drop)]
pub struct Texts {
    names: Names,
}

impl Texts {
    /// No texts.
    pub fn new(alloc: Global) -> Texts {
        Texts {
            names: Names::new(alloc),
        }
    }

    fn put(&mut self, name: Name, run: u64) -> Option<()> {
        self.names.reserve(1).ok()?;
        let id = ObjectId {
            run: RunNo(run),
            k: 0,
        };
        if self.names.spare() == 0 {
            return None;
        }
        self.names.put(name, id, 1);
        Some(())
    }

    fn next(&self, alloc: Global, name: &Name) -> Option<String> {
        let after = if name.as_str() == "-" {
            None
        } else {
            Some(name)
        };
        match self.names.next_after(after) {
            Some(next) => String::from_str(alloc, next.as_str()).ok(),
            None => Some(String::new(alloc)),
        }
    }
}

impl Subject for Texts {
    fn answer(&mut self, alloc: Global, call: &mut Words<'_>) -> Option<String> {
        let word = call.word()?;
        let name = Name::new(alloc, call.word()?.as_bytes()).ok()?;
        match word {
            "put" => {
                self.put(name, call.number()?)?;
                Some(String::new(alloc))
            }
            "get" => numbered(alloc, self.names.get(&name).map(|found| found.0.run.0)),
            "next" => self.next(alloc, &name),
            "remove" => {
                self.names.remove(&name);
                Some(String::new(alloc))
            }
            _ => None,
        }
    }
}
