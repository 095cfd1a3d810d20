//! The payload of a commit's record before the commit has its number.
ghost use Rattle.std.specs.Prelude.{◌≡◌, ◌++◌, IfOk};
ghost use Rattle.dk_types.specs.Fields.{u32_spelling};
ghost use Rattle.dk_model.specs.Entries.{entry_spelling};
ghost use Rattle.dk_entry.specs.Drafts.{IsDraft, numbered};

use crate::entries::{put_commit, room_for};
use crate::formats::SecondFormat;
use byteorder::{BigEndian, ByteOrder};
use dk_types::{Blob, Effects, NoMemory, RunNo};
use dk_wire::Writer;
use std::alloc::Global;
use std::marker::Model;

/// The payload of the one entry of a commit, of which the number alone is missing. So it is written before the commit's
/// place among the others is known, and beside other commits.
#[derive(Debug, Drop)]
pub struct CommitDraft {
    payload: Vec<u8>,
}

impl Model for CommitDraft {
    ghost use Rattle.std.specs.Prelude.{ℕ, ◌≤◌, List, length};

    ghost Value = { List ℕ };

    ghost view = { λ draft. draft.payload.items };

    ghost invariant = { λ draft. 12 ≤ length draft.payload.items };
}

/// The payload of the one entry that has these fields, with 0 for its number.
fn encode_unnumbered(alloc: Global, run: RunNo, effects: &Effects) -> Result<Vec<u8>, NoMemory>
    ensures { IfOk result (λ payload. payload.items ≡ u32_spelling 1 ++ entry_spelling (record { seq = 0; run = run; effects = effects.now })) }
{
    let mut writer = Writer::with_capacity(alloc, room_for(effects))?;
    writer.put_u32(1)?;
    put_commit::<SecondFormat>(&mut writer, 0, run, effects)?;
    Ok(writer.into_vec())
}

impl CommitDraft {
    /// The payload of the commit of this run with these effects.
    #[tactic(auto, using(crate::proofs::OneEntry::numbered_alone, crate::proofs::OneEntry::has_number))]
    pub fn new(alloc: Global, run: RunNo, effects: &Effects) -> Result<CommitDraft, NoMemory>
        ensures { IfOk result (IsDraft run effects.now) }
    {
        let payload = encode_unnumbered(alloc, run, effects)?;
        Ok(CommitDraft { payload })
    }

    /// The payload with the commit's number. Takes no memory.
    #[tactic(auto, unfolding(dk_types::specs::Fields::u64_spelling))]
    pub fn numbered(self, seq: u64) -> Blob
        ensures { result ≡ numbered seq self }
    {
        let CommitDraft { mut payload } = self;
        let mut number = [0; 8];
        BigEndian::write_u64(&mut number, seq);
        payload[4..12].copy_from_slice(&number);
        Blob::from_vec(payload)
    }
}
