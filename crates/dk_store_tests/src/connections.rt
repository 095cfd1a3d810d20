//! The calls on connections. The first is Alice's.

use crate::kept::{numbered, said};
use dk_connections::{Connections, Deliveries, Handed};
use dk_rows::{Subject, Words};
use dk_types::{Blob, ConnNo, Input, Job, Name, Out, Session};
use std::alloc::Global;

/// Connections.
#[derive(Drop)]
pub struct Crowd {
    connections: Connections,
}

fn name(alloc: Global, call: &mut Words<'_>) -> Option<Name> {
    Name::new(alloc, call.word()?.as_bytes()).ok()
}

fn body(alloc: Global, text: &str) -> Option<Blob> {
    Blob::copy_of(alloc, text.as_bytes()).ok()
}

/// The message of a word, or what it names.
fn out(alloc: Global, word: &str) -> Option<Out> {
    match word {
        "accepted" => Some(Out::Accepted),
        "refused" => Some(Out::Refused),
        "close" => Some(Out::Close),
        _ => Some(Out::Message(body(alloc, word)?)),
    }
}

/// The input of a word, or what it names.
fn input(alloc: Global, word: &str) -> Option<Input> {
    match word {
        "quit" => Some(Input::Disconnect { graceful: true }),
        "lost" => Some(Input::Disconnect { graceful: false }),
        _ => Some(Input::Message(body(alloc, word)?)),
    }
}

/// The job of that input of Alice.
fn alices(alloc: Global, word: &str) -> Option<Job> {
    let conn = ConnNo(1);
    let name = Name::new(alloc, b"alice").ok()?;
    if word == "login" {
        return Some(Job::Login { conn, name });
    }
    match input(alloc, word)? {
        Input::Disconnect { graceful } => Some(Job::Disconnect {
            conn,
            name,
            graceful,
        }),
        Input::Message(body) => Some(Job::Message { conn, name, body }),
        _ => None,
    }
}

/// Whose job it is, and the word of its input.
fn job_text(alloc: Global, job: &Job) -> Option<String> {
    match job {
        Job::Login { name, .. } => format!(in alloc; "{} login", name.as_str()).ok(),
        Job::Message { name, body, .. } => {
            let mut text = format!(in alloc; "{} ", name.as_str()).ok()?;
            push_text(&mut text, body)?;
            Some(text)
        }
        Job::Disconnect { name, graceful, .. } => {
            let word = if *graceful { "quit" } else { "lost" };
            format!(in alloc; "{} {word}", name.as_str()).ok()
        }
        _ => None,
    }
}

fn push_text(text: &mut String, body: &Blob) -> Option<()> {
    for byte in body.as_slice() {
        text.push(char::from(*byte)).ok()?;
    }
    Some(())
}

fn push_out(text: &mut String, out: &Out) -> Option<()> {
    match out {
        Out::Accepted => text.push_str("accepted").ok()?,
        Out::Refused => text.push_str("refused").ok()?,
        Out::Close => text.push_str("close").ok()?,
        Out::Message(body) => push_text(text, body)?,
        Out::Channel { .. } => return None,
    }
    text.push(' ').ok()
}

/// What is handed, from the ninth on by its number alone, and whether that was the end.
fn handed_text(alloc: Global, handed: &Handed) -> Option<String> {
    let outs = handed.outs.as_slice();
    let mut text = String::new(alloc);
    if outs.len() > 8 {
        let part = format!(in alloc; "{} of ", outs.len()).ok()?;
        text.push_str(part.as_str()).ok()?;
        push_out(&mut text, outs.first()?)?;
    } else {
        for out in outs {
            push_out(&mut text, out)?;
        }
    }
    if handed.end {
        text.push_str("end").ok()?;
    }
    Some(text)
}

impl Crowd {
    /// These connections, for rows to call.
    pub fn of(connections: Connections) -> Crowd {
        Crowd { connections }
    }

    fn connect(&mut self, alloc: Global, call: &mut Words<'_>) -> Option<()> {
        let conn = ConnNo(call.number()?);
        let name = name(alloc, call)?;
        if self.connections.contains(conn) {
            return None;
        }
        self.connections.connect(conn, &name).ok()
    }

    /// A session that is over when the world opens.
    fn open_ended(&mut self, alloc: Global, call: &mut Words<'_>) -> Option<()> {
        let conn = ConnNo(call.number()?);
        let name = name(alloc, call)?;
        if self.connections.contains(conn) {
            return None;
        }
        let session = Session { name, conn };
        self.connections.open_ended(&session).ok()
    }

    /// `post 5 1 look`: so many times to connection 1. What the last one answered.
    fn post(&mut self, alloc: Global, call: &mut Words<'_>) -> Option<String> {
        let times = call.number()?;
        let conn = ConnNo(call.number()?);
        let word = call.word()?;
        let mut last = Ok(());
        for _ in 0..times {
            last = self.connections.post(conn, input(alloc, word)?);
        }
        match last {
            Ok(()) => String::from_str(alloc, "ok").ok(),
            Err(refused) => format!(in alloc; "{refused:?}").ok(),
        }
    }

    /// The connection whose input a claim takes, and whose job it is.
    fn ready(&self, alloc: Global) -> Option<String> {
        match self.connections.least_ready() {
            Some(conn) => job_text(alloc, &self.connections.job(conn).ok()?),
            None => Some(String::new(alloc)),
        }
    }

    fn claim(&mut self, call: &mut Words<'_>) -> Option<()> {
        let conn = ConnNo(call.number()?);
        self.connections.claim(conn, call.number()?);
        Some(())
    }

    fn release(&mut self, call: &mut Words<'_>) -> Option<()> {
        self.connections.release(ConnNo(call.number()?));
        Some(())
    }

    /// `deliver login 1 accepted 2 hello`: what a commit of that job of Alice sends, to whom.
    fn deliver(&mut self, alloc: Global, call: &mut Words<'_>) -> Option<()> {
        let job = alices(alloc, call.word()?)?;
        let mut outs = Vec::new(alloc);
        for _ in 0..64 {
            if call.rest().is_empty() {
                break;
            }
            let conn = ConnNo(call.number()?);
            outs.push((conn, out(alloc, call.word()?)?)).ok()?;
        }
        self.deliver_all(alloc, &job, outs.as_slice())
    }

    /// `fill login 4096 1 refused`: the same message so often.
    fn fill(&mut self, alloc: Global, call: &mut Words<'_>) -> Option<()> {
        let job = alices(alloc, call.word()?)?;
        let times = call.number()?;
        let conn = ConnNo(call.number()?);
        let word = call.word()?;
        let mut outs = Vec::new(alloc);
        for _ in 0..times {
            outs.push((conn, out(alloc, word)?)).ok()?;
        }
        self.deliver_all(alloc, &job, outs.as_slice())
    }

    fn deliver_all(&mut self, alloc: Global, job: &Job, outs: &[(ConnNo, Out)]) -> Option<()> {
        let deliveries = Deliveries::new(alloc, outs).ok()?;
        self.connections.deliver(job, deliveries);
        Some(())
    }

    /// `hand 1 5`
    fn hand(&mut self, alloc: Global, call: &mut Words<'_>) -> Option<String> {
        let conn = ConnNo(call.number()?);
        let handed = self.connections.hand(conn, call.small()?).ok()?;
        if handed.end == self.connections.contains(conn) {
            return None;
        }
        handed_text(alloc, &handed)
    }

    /// A call that only changes.
    fn change(&mut self, alloc: Global, word: &str, call: &mut Words<'_>) -> Option<()> {
        match word {
            "connect" => self.connect(alloc, call),
            "open-ended" => self.open_ended(alloc, call),
            "claim" => self.claim(call),
            "release" => self.release(call),
            "deliver" => self.deliver(alloc, call),
            "fill" => self.fill(alloc, call),
            _ => None,
        }
    }
}

impl Subject for Crowd {
    fn answer(&mut self, alloc: Global, call: &mut Words<'_>) -> Option<String> {
        match call.word()? {
            "post" => self.post(alloc, call),
            "ready" => self.ready(alloc),
            "hand" => self.hand(alloc, call),
            "len" => numbered(alloc, Some(self.connections.len())),
            "there" => said(alloc, self.connections.contains(ConnNo(call.number()?))),
            word => {
                self.change(alloc, word, call)?;
                Some(String::new(alloc))
            }
        }
    }
}
