//! The lines of events.
ghost use Rattle.std.specs.Prelude.{◌≡◌, ◌∷◌, ◌++◌, [], map, OnOk, string_bytes};
ghost use Rattle.dk_model.specs.Lines.{text_of};
ghost use Rattle.dk_model.specs.Transcripts.{conn_line, connect_lines, post_lines, claim_lines, to_line, event_lines, lines_of_events, known_after};
ghost use Rattle.dk_script.specs.Knowledge.{known_of};

use crate::item_text::{push_conn, push_job, push_out, push_outcome};
use crate::known::Known;
use dk_types::{ClaimReply, ConnNo, ConnectReply, Event, NoMemory, Out, PostReply};

/// Appends the lines of events that happen one after another, and takes note of what they tell.
pub(crate) fn push_events(
    out: &mut String,
    known: &mut Known,
    events: &[Event],
) -> Result<(), NoMemory>
    ensures text { OnOk result (string_bytes out.new ≡ string_bytes out.old ++ text_of (lines_of_events (known_of known.old) events.now)) }
    ensures known { OnOk result (known_of known.new ≡ known_after (known_of known.old) events.now) }
{
    for event in events {
        push_event(out, known, event)?;
        known.learn(event)?;
    }
    Ok(())
}

fn push_event(out: &mut String, known: &Known, event: &Event) -> Result<(), NoMemory>
    ensures ok { OnOk result (string_bytes out.new ≡ string_bytes out.old ++ text_of (event_lines (known_of known.now) event.now)) }
{
    match event {
        Event::Connect { name, reply, .. } => push_connect(out, name.as_slice(), *reply),
        Event::Post { conn, reply, .. } => push_post(out, known.name_at(*conn), *conn, *reply),
        Event::Claim { reply, .. } => push_claim(out, reply),
        Event::Release { .. } => Ok(()),
        Event::Commit {
            run,
            seq,
            outcome,
            ..
        } => {
            write!(out, "commit {seq} run {} ", run.0)?;
            push_outcome(out, *outcome)?;
            end_line(out)
        }
        Event::Hand { conn, outs, .. } => {
            push_hand(out, *conn, known.name_at(*conn), outs.as_slice())
        }
        Event::Tick { moment, .. } => {
            writeln!(out, "tick {}", known.ticked(*moment))?;
            Ok(())
        }
    }
}

fn end_line(out: &mut String) -> Result<(), NoMemory>
    ensures ok { OnOk result (string_bytes out.new ≡ string_bytes out.old ++ 10 ∷ []) }
{
    out.push('\n')?;
    Ok(())
}

/// Appends `WORD CONN NAME` as a line.
fn push_conn_line(out: &mut String, word: &str, conn: ConnNo, name: &[u8]) -> Result<(), NoMemory>
    ensures ok { OnOk result (string_bytes out.new ≡ string_bytes out.old ++ text_of (conn_line word.now conn name.now ∷ [])) }
{
    push_conn(out, word, conn, name)?;
    end_line(out)
}

fn push_connect(out: &mut String, name: &[u8], reply: ConnectReply) -> Result<(), NoMemory>
    ensures ok { OnOk result (string_bytes out.new ≡ string_bytes out.old ++ text_of (connect_lines name.now reply)) }
{
    match reply {
        ConnectReply::Number(conn) => push_conn_line(out, "open", conn, name),
        ConnectReply::Exhausted { .. } => Ok(()),
    }
}

fn push_post(out: &mut String, name: &[u8], conn: ConnNo, reply: PostReply) -> Result<(), NoMemory>
    ensures ok { OnOk result (string_bytes out.new ≡ string_bytes out.old ++ text_of (post_lines name.now conn reply)) }
{
    match reply {
        PostReply::Taken => Ok(()),
        PostReply::Closed => push_conn_line(out, "closed", conn, name),
        PostReply::QueueFull { .. } => push_conn_line(out, "full", conn, name),
    }
}

fn push_claim(out: &mut String, reply: &ClaimReply) -> Result<(), NoMemory>
    ensures ok { OnOk result (string_bytes out.new ≡ string_bytes out.old ++ text_of (claim_lines reply.now)) }
{
    match reply {
        ClaimReply::Granted { run, at, job } => {
            write!(out, "claim {} at {at} ", run.0)?;
            push_job(out, job)?;
            end_line(out)
        }
        _ => Ok(()),
    }
}

fn push_hand(out: &mut String, conn: ConnNo, name: &[u8], outs: &[Out]) -> Result<(), NoMemory>
    ensures ok { OnOk result (string_bytes out.new ≡ string_bytes out.old ++ text_of (map (to_line conn name.now) outs.now)) }
{
    for message in outs {
        push_to_line(out, conn, name, message)?;
    }
    Ok(())
}

fn push_to_line(out: &mut String, conn: ConnNo, name: &[u8], message: &Out) -> Result<(), NoMemory>
    ensures ok { OnOk result (string_bytes out.new ≡ string_bytes out.old ++ (to_line conn name.now message.now ++ 10 ∷ [])) }
{
    push_conn(out, "to", conn, name)?;
    out.push(' ')?;
    push_out(out, message)?;
    end_line(out)
}
