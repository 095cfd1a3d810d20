//! The transcript of a play that came to its end.
ghost use Rattle.std.specs.Prelude.{◌≡◌, ◌≤◌, length, true, false, All, IfErr, IfOk};
ghost use Rattle.std.specs.List.Sorted.{IsNonDecreasing};
ghost use Rattle.dk_model.specs.Phases.{phases_of};
ghost use Rattle.dk_model.specs.Transcripts.{transcript_text};
ghost use Rattle.dk_play_laws.specs.Reported.{AreKept};
ghost use Rattle.dk_workers.specs.declared.play.fault.PlayFault.TheVariants.{NoMemory as no_memory};

use super::fault::PlayFault;
use dk_script::transcript_of;
use dk_types::{Blob, Event};
use std::alloc::Global;

// Whether a run was given back.
fn has_release(events: &[Event]) -> bool
    ensures { result ≡ false → AreKept events.now }
{
    for event in events {
        if let Event::Release { .. } = event {
            return true;
        }
    }
    false
}

/// The text of the events by phases. Where a run was given back there was no memory for it, and there is no text.
pub(crate) fn text_of(
    alloc: Global,
    events: &[Event],
    marks: &[u64],
    commits: u64,
    tasks: u64,
) -> Result<Blob, PlayFault>
    requires ordered { IsNonDecreasing marks.now }
    requires within { All (λ mark. mark ≤ length events.now) marks.now }
    ensures kept { IfOk result (λ text. AreKept events.now) }
    ensures text { IfOk result (λ text. text ≡ transcript_text (phases_of events.now marks.now) commits tasks) }
    ensures fault { IfErr result (λ why. why ≡ no_memory) }
{
    if has_release(events) {
        return Err(PlayFault::NoMemory);
    }
    let text = transcript_of(alloc, events, marks, commits, tasks)?;
    Ok(text)
}
