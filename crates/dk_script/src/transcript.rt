//! The text of a history by phases.
ghost use Rattle.std.specs.Prelude.{◌≡◌, ℕ, ◌≤◌, ◌∷◌, ◌++◌, [], length, codes, decimal, slice_range, All, IfOk, OnOk, string_bytes};
ghost use Rattle.std.specs.List.Sorted.{IsNonDecreasing};
ghost use Rattle.dk_model.specs.Lines.{text_of};
ghost use Rattle.dk_model.specs.Phases.{phase_end, phases_of};
ghost use Rattle.dk_model.specs.Transcripts.{lines_of_phases, done_line, transcript_text};
ghost use Rattle.dk_script.specs.Knowledge.{known_of};

use crate::event_text::push_events;
use crate::known::Known;
use dk_types::{Blob, Event, NoMemory};
use std::alloc::Global;

/// The transcript of the events. A mark is the place of a phase's first event; `commits` and `tasks`
/// are the durable world's numbers at the end.
pub fn transcript_of(
    alloc: Global,
    events: &[Event],
    marks: &[u64],
    commits: u64,
    tasks: u64,
) -> Result<Blob, NoMemory>
    requires ordered { IsNonDecreasing marks.now }
    requires within { All (λ mark. mark ≤ length events.now) marks.now }
    ensures { IfOk result (λ text. text ≡ transcript_text (phases_of events.now marks.now) commits tasks) }
{
    let mut out = String::new(alloc);
    let mut known = Known::nothing(alloc);
    push_phases(&mut out, &mut known, events, marks)?;
    push_done(&mut out, commits, tasks)?;
    Ok(Blob::from_vec(out.into_bytes()))
}

fn push_phases(
    out: &mut String,
    known: &mut Known,
    events: &[Event],
    marks: &[u64],
) -> Result<(), NoMemory>
    requires ordered { IsNonDecreasing marks.now }
    requires within { All (λ mark. mark ≤ length events.now) marks.now }
    ensures ok { OnOk result (string_bytes out.new ≡ string_bytes out.old ++ text_of (lines_of_phases 0 (known_of known.old) (phases_of events.now marks.now))) }
{
    for i in 0..marks.len() {
        push_title(out, i)?;
        push_events(out, known, phase(events, marks[i], &marks[i + 1..]))?;
    }
    Ok(())
}

fn push_title(out: &mut String, number: usize) -> Result<(), NoMemory>
    ensures ok { OnOk result (string_bytes out.new ≡ string_bytes out.old ++ (codes "phase " ++ decimal number ++ 10 ∷ [])) }
{
    writeln!(out, "phase {number}")?;
    Ok(())
}

fn push_done(out: &mut String, commits: u64, tasks: u64) -> Result<(), NoMemory>
    ensures ok { OnOk result (string_bytes out.new ≡ string_bytes out.old ++ (done_line commits tasks ++ 10 ∷ [])) }
{
    writeln!(out, "done commits {commits} tasks {tasks}")?;
    Ok(())
}

/// The events of the phase that begins at this mark; `later` are the marks behind it.
fn phase<'a>(events: &'a [Event], mark: u64, later: &[u64]) -> &'a [Event]
    requires ordered { mark ≤ phase_end events.now later.now }
    requires within { phase_end events.now later.now ≤ length events.now }
    ensures { result.now ≡ slice_range events.now mark (phase_end events.now later.now) }
{
    let start = mark as usize;
    let end = phase_end(events, later);
    &events[start..end]
}

/// Where the phase before these marks ends.
fn phase_end(events: &[Event], later: &[u64]) -> usize
    ensures { result ≡ phase_end events.now later.now }
{
    match later.first() {
        None => events.len(),
        Some(mark) => *mark as usize,
    }
}
