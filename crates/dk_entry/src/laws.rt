//! Laws of the payloads. Each is the contract of a function that does nothing.
ghost use Rattle.std.specs.Prelude.{ℕ, List};
ghost use Rattle.dk_types.specs.declared.durable.Entry.{Entry};
ghost use Rattle.dk_types.specs.Exact.{IsPrefixFree};
ghost use Rattle.dk_model.specs.Entries.{AreEntries, entries_spelling};

/// Entries have one payload in a format, and no payload begins another of its format.
pub fn no_payload_begins_another()
    ensures { (format : ℕ) → IsPrefixFree (AreEntries format) entries_spelling }
{}

/// Entries of format 1 are entries of format 2, where their payload is the same.
pub fn first_format_is_in_the_second()
    ensures { (entries : List Entry) → AreEntries 1 entries → AreEntries 2 entries }
{}
