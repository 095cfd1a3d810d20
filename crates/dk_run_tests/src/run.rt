//! One run, call by call.

use crate::ends::{end, job, outcome, told};
use crate::view::Counting;
use crate::{channels, names, objects, sessions, swords, tasks, things};
use dk_rows::{Subject, Words};
use dk_txn::{Finished, Txn};
use dk_types::RunNo;
use std::alloc::Global;

/// Run 9 over a view, and what it came to, once it has ended.
#[derive(Drop)]
pub struct Run<'a> {
    txn: Txn<'a, Counting>,
    finished: Option<Finished>,
}

impl<'a> Run<'a> {
    /// The run over this view, at this moment in ms.
    pub fn new(alloc: Global, view: &'a mut Counting, at: u64) -> Run<'a> {
        Run {
            txn: Txn::begin(alloc, view, RunNo(9), at.min(1_000_000)),
            finished: None,
        }
    }

    fn call(&mut self, alloc: Global, word: &str, call: &mut Words<'_>) -> Option<String> {
        let txn = &mut self.txn;
        match word {
            "create" | "make" | "get" | "bytes" | "save" | "write" | "mark" | "remove" => {
                objects::answer(alloc, txn, word, call)
            }
            "bound" | "binding" | "bind" | "unbind" | "next" => {
                names::answer(alloc, txn, word, call)
            }
            "schedule" | "periodic" | "cancel" | "own" | "send" | "room" | "mode" => {
                tasks::answer(alloc, txn, word, call)
            }
            "session" => sessions::answer(alloc, txn, call),
            "channel" => channels::answer(alloc, txn, call),
            "thing" => things::answer(alloc, txn, call),
            "sword" => swords::answer(alloc, txn, call),
            _ => None,
        }
    }

    /// Makes a call so many times, and tells what the last one answered.
    fn many(&mut self, alloc: Global, call: &mut Words<'_>) -> Option<String> {
        let times = call.number()?;
        let word = call.word()?;
        let mut last = None;
        for _ in 0..times {
            let mut again = *call;
            last = self.call(alloc, word, &mut again);
        }
        last
    }

    /// Ends the run, and tells the outcome.
    fn end(&mut self, alloc: Global, call: &mut Words<'_>) -> Option<String> {
        let end = end(call)?;
        let job = job(alloc, call)?;
        let finished = self.txn.end(&job, end).ok()?;
        let text = outcome(alloc, &finished);
        self.finished = Some(finished);
        text
    }
}

impl Subject for Run<'_> {
    fn answer(&mut self, alloc: Global, call: &mut Words<'_>) -> Option<String> {
        let word = call.word()?;
        match word {
            "many" => self.many(alloc, call),
            "end" => self.end(alloc, call),
            "tells" => {
                let word = call.word()?;
                told(alloc, self.finished.as_ref()?, word, call)
            }
            _ => self.call(alloc, word, call),
        }
    }
}
