//! The two lines of `stress`.
ghost use Rattle.std.specs.Prelude.{◌≡◌, ◌++◌, string_bytes, IfOk, OnOk};
ghost use Rattle.std.specs.List.{flat_map};
ghost use Rattle.darkstar.specs.StressText.{lines_of, spaced};

use dk_types::NoMemory;
use std::alloc::Global;

/// Each count behind a space.
fn push_counts(out: &mut String, counts: &[u64]) -> Result<(), NoMemory>
    ensures { OnOk result (string_bytes out.new ≡ string_bytes out.old ++ flat_map spaced counts.now) }
{
    for count in counts {
        write!(out, " {count}")?;
    }
    Ok(())
}

/// The number of commits, and the counters.
pub(crate) fn lines_text(alloc: Global, commits: u64, counts: &[u64]) -> Result<String, NoMemory>
    ensures { IfOk result (λ text. string_bytes text ≡ lines_of commits counts.now) }
{
    let mut text = format!(in alloc; "commits {commits}\ncounters")?;
    push_counts(&mut text, counts)?;
    text.push_str("\n")?;
    Ok(text)
}
