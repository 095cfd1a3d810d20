//! What a commit of the shared host needs.
ghost use Rattle.std.specs.Prelude.{◌≡◌, [], ◌∷◌};
ghost use Rattle.dk_entry.specs.Drafts.{IsDraft};
ghost use Rattle.dk_model.specs.Entries.{entries_spelling};

use dk_core::Prepared;
use dk_entry::CommitDraft;
use dk_types::Blob;

/// All that a commit needs, with the payload of its record.
#[derive(Drop)]
pub struct PreparedCommit {
    pub(crate) prepared: Prepared,
    pub(crate) payload: Blob,
    pub(crate) ghost spelled: { payload ≡ entries_spelling (prepared.entry ∷ []) },
}

impl PreparedCommit {
    // With its draft as the payload of its entry alone. Takes no memory.
    pub(crate) fn new(prepared: Prepared, draft: CommitDraft) -> PreparedCommit
        requires { IsDraft prepared.entry.run prepared.entry.effects draft }
        ensures { result.prepared ≡ prepared }
    {
        let payload = draft.numbered(prepared.seq());
        PreparedCommit { prepared, payload }
    }
}
