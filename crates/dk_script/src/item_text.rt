//! Jobs, outcomes and messages as they are written in a line.
ghost use Rattle.std.specs.Prelude.{◌≡◌, ℕ, ◌∷◌, ◌++◌, OnOk, string_bytes};
ghost use Rattle.dk_model.specs.Lines.{escaped};
ghost use Rattle.dk_model.specs.Orders.{job_text, outcome_text};
ghost use Rattle.dk_model.specs.Transcripts.{out_text, conn_line};

use crate::text::push_escaped;
use dk_types::{AppFault, ConnNo, Job, Name, NoMemory, Out, Outcome};

/// Appends `WORD CONN NAME`.
pub(crate) fn push_conn(
    out: &mut String,
    word: &str,
    conn: ConnNo,
    name: &[u8],
) -> Result<(), NoMemory>
    ensures ok { OnOk result (string_bytes out.new ≡ string_bytes out.old ++ conn_line word.now conn name.now) }
{
    write!(out, "{word} {} ", conn.0)?;
    push_escaped(out, name)
}

pub(crate) fn push_job(out: &mut String, job: &Job) -> Result<(), NoMemory>
    ensures ok { OnOk result (string_bytes out.new ≡ string_bytes out.old ++ job_text job.now) }
{
    match job {
        Job::Initialize => push_word(out, "initialize"),
        Job::Login { name, .. } => push_named(out, "login ", name),
        Job::Message { name, .. } => push_named(out, "message ", name),
        Job::Channel { name, .. } => push_named(out, "channel ", name),
        Job::Disconnect { name, .. } => push_named(out, "disconnect ", name),
        Job::Task { key, .. } => {
            write!(out, "task {}.{}", key.run.0, key.k)?;
            Ok(())
        }
    }
}

pub(crate) fn push_outcome(out: &mut String, outcome: Outcome) -> Result<(), NoMemory>
    ensures ok { OnOk result (string_bytes out.new ≡ string_bytes out.old ++ outcome_text outcome) }
{
    match outcome {
        Outcome::Ok => write!(out, "ok")?,
        Outcome::Fail(AppFault::Refused(number)) => write!(out, "fail r{number}")?,
        Outcome::Fail(AppFault::Game(code)) => write!(out, "fail g{code}")?,
        Outcome::Fail(AppFault::TooLarge) => write!(out, "fail large")?,
    }
    Ok(())
}

pub(crate) fn push_out(out: &mut String, message: &Out) -> Result<(), NoMemory>
    ensures ok { OnOk result (string_bytes out.new ≡ string_bytes out.old ++ out_text message.now) }
{
    match message {
        Out::Accepted => push_word(out, "accepted"),
        Out::Refused => push_word(out, "refused"),
        Out::Message(body) => push_body(out, "message ", body.as_slice()),
        Out::Channel { channel, body } => {
            push_named(out, "channel ", channel)?;
            push_body(out, " ", body.as_slice())
        }
        Out::Close => push_word(out, "close"),
    }
}

fn push_word(out: &mut String, word: &str) -> Result<(), NoMemory>
    ensures ok { OnOk result (string_bytes out.new ≡ string_bytes out.old ++ word.now) }
{
    out.push_str(word)?;
    Ok(())
}

fn push_named(out: &mut String, word: &str, name: &Name) -> Result<(), NoMemory>
    ensures ok { OnOk result (string_bytes out.new ≡ string_bytes out.old ++ (word.now ++ escaped name.now)) }
{
    push_body(out, word, name.as_slice())
}

fn push_body(out: &mut String, word: &str, body: &[u8]) -> Result<(), NoMemory>
    ensures ok { OnOk result (string_bytes out.new ≡ string_bytes out.old ++ (word.now ++ escaped body.now)) }
{
    out.push_str(word)?;
    push_escaped(out, body)
}
