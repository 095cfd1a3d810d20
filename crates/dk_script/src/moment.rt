//! Moments as a line has them.
ghost use Rattle.std.specs.Prelude.{◌≡◌, ℕ, ◌≤◌, decimal, IsTrue, ◌↔◌, IfSome, IfNone};
ghost use Rattle.dk_types.specs.declared.limits.TheConstants.{MOMENT_MOST_MS};
ghost use Rattle.dk_script.specs.Reading.{IsBare};

use dk_model::limits::MOMENT_MOST_MS;

/// The moment that the digits write, where they are its decimal text and it is no later than moments may be.
pub(crate) fn moment_of(bytes: &[u8]) -> Option<u64>
    ensures found { IfSome result (λ moment. (bytes.now ≡ decimal moment) × (moment ≤ MOMENT_MOST_MS)) }
    ensures none { IfNone result ((moment : ℕ) → bytes.now ≡ decimal moment → moment ≤ MOMENT_MOST_MS → ⊥) }
{
    if !is_bare(bytes) {
        return None;
    }
    let moment = number_of(bytes)?;
    if moment <= MOMENT_MOST_MS {
        Some(moment)
    } else {
        None
    }
}

/// The number that the digits write. They have neither a sign nor a zero before them.
fn number_of(bytes: &[u8]) -> Option<u64>
    requires { IsBare bytes.now }
    ensures found { IfSome result (λ number. bytes.now ≡ decimal number) }
    ensures none { IfNone result ((number : ℕ) → bytes.now ≡ decimal number → number ≤ MOMENT_MOST_MS → ⊥) }
{
    match std::str::from_utf8(bytes) {
        Ok(text) => text.parse::<u64>().ok(),
        Err(_) => None,
    }
}

/// Whether neither a sign nor a zero stands before digits.
fn is_bare(bytes: &[u8]) -> bool
    ensures { IsTrue result ↔ IsBare bytes.now }
{
    match bytes.first() {
        None => true,
        Some(b) => *b != b'+' && (*b != b'0' || bytes.len() == 1),
    }
}
