//! Commit entries as bytes.
//!
//! A record of a store's journal has a list of entries as its payload. `encode_entries` writes it, and a `CommitDraft` is
//! that of one entry before its number is known; `decode_entries` or `entries_of` reads it again, in the format that the
//! store's header names; bytes that are no such list are told by their first wrong place. The forms of objects, names and
//! tasks are those of a checkpoint's image too. Whether entries fit a world is not asked here.
#![tactic(auto)]

pub use dk_wire::PayloadRefused as EntryRefused;
pub use draft::CommitDraft;
pub use effects::EffectsForm;
pub use entries::{EntriesForm, EntryForm, decode_entries, encode_entries, entries_of};
pub use formats::{FirstFormat, SecondFormat, StoreFormat};
pub use items::{BindingForm, NextIdForm, NextNameForm, ObjectForm};
pub use tasks::{MovedForm, NextKeyForm, PendingForm};

pub mod draft;
pub mod effects;
pub mod entries;
pub mod formats;
pub mod items;
pub mod laws;
pub mod tasks;
