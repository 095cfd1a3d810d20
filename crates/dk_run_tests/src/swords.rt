//! SwordWorld, all of whose jobs here are of one run.

use crate::said;
use crate::view::Counting;
use dk_game::{Game, Halt};
use dk_rows::Words;
use dk_txn::Txn;
use dk_types::{Blob, ConnNo, Job};
use std::alloc::Global;
use sword_world::SwordWorld;

/// `sword initialize`, `sword login alice`, `sword say alice look` and `sword leave alice`.
pub fn answer(alloc: Global, txn: &mut Txn<'_, Counting>, call: &mut Words<'_>) -> Option<String> {
    match call.word()? {
        "initialize" => play(alloc, txn, &Job::Initialize),
        word => {
            let job = job(alloc, word, call)?;
            play(alloc, txn, &job)
        }
    }
}

fn job(alloc: Global, word: &str, call: &mut Words<'_>) -> Option<Job> {
    let conn = ConnNo(1);
    let name = said::name(alloc, call)?;
    match word {
        "login" => Some(Job::Login { conn, name }),
        "say" => {
            let body = Blob::copy_of(alloc, call.rest().as_bytes()).ok()?;
            Some(Job::Message { conn, name, body })
        }
        "leave" => Some(Job::Disconnect {
            conn,
            name,
            graceful: true,
        }),
        _ => None,
    }
}

fn play(alloc: Global, txn: &mut Txn<'_, Counting>, job: &Job) -> Option<String> {
    match SwordWorld::new().run(alloc, job, txn) {
        Ok(()) => said::text(alloc, "ok"),
        Err(Halt::Fault(fault)) => format!(in alloc; "{fault:?}").ok(),
        Err(Halt::NoMemory) => None,
    }
}
