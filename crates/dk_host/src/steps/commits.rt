//! Commits, in two steps between which other passes go on.

use crate::book::WorldBook;
use crate::hosting::Hosting;
use crate::right::CommitRight;
use crate::steps::Call;
use dk_core::{Claimed, PrepareRefused, Prepared};
use dk_turn::{NotingAll, Step};
use dk_txn::Finished;
use dk_types::{Event, Outcome, RunNo};
use std::snapshot::Snapshot;

/// Looks whether all reads of a finished run stand, and makes what its commit needs.
pub(crate) struct Prepare<'a, W: Hosting> {
    pub(crate) claimed: &'a Claimed,
    pub(crate) finished: &'a Finished,
    pub(crate) right: CommitRight<W>,
}

impl<'a, W: Hosting> Step<WorldBook<W>> for Prepare<'a, W> {
    ghost use Rattle.std.specs.Prelude.{◌≡◌};
    ghost use Rattle.dk_host.specs.Steps.{MayPrepare, PreparesBy};

    type Reply = (CommitRight<W>, Result<Prepared, PrepareRefused>);

    ghost may = { λ s pass history. (s.right.commits.parts ≡ 1) × (s.right.places.parts ≡ 1) × MayPrepare W.opened pass history s.claimed.now s.finished.now };

    ghost gives = { λ s _ before reply added. (reply.0.commits.parts ≡ 1)
        × (reply.0.places.parts ≡ 1)
        × (reply.0.commits.amount ≡ s.right.commits.amount)
        × PreparesBy W.opened s.claimed.now s.finished.now s.right.commits.amount reply.0.places.amount before reply.1 added };

    fn apply(
        self,
        _pass: u32,
        book: &mut WorldBook<W>,
    ) -> (CommitRight<W>, Result<Prepared, PrepareRefused>) {
        let Prepare {
            claimed,
            finished,
            mut right,
        } = self;
        right.audit(&mut book.commits, &mut book.places);
        right.let_go(&mut book.places);
        let result = book.core.prepare(claimed, finished);
        right.keep_for(&mut book.places, &result);
        (right, result)
    }

    fn wakes(_reply: &(CommitRight<W>, Result<Prepared, PrepareRefused>)) -> bool {
        false
    }
}

/// A run that is committed, as contracts see it once it is handed over.
pub(crate) struct Committed {
    run: RunNo,
    outcome: Snapshot<Outcome>,
}

/// Enters a commit for which all is prepared.
pub(crate) struct Publish<W: Hosting> {
    pub(crate) claimed: Claimed,
    pub(crate) finished: Finished,
    pub(crate) prepared: Prepared,
    pub(crate) right: CommitRight<W>,
}

impl<'a, W: Hosting> NotingAll<Call<'a, Committed, u64>, Event> for Publish<W> {
    ghost use Rattle.std.specs.Prelude.{[], ◌∷◌};
    ghost use Rattle.dk_types.specs.declared.event.Event.TheVariants as event;

    ghost entries = { λ t. event.Commit t.pass t.ask.now.run t.reply.now t.ask.now.outcome.value ∷ [] };
}

impl<W: Hosting> Step<WorldBook<W>> for Publish<W> {
    ghost use Rattle.std.specs.Prelude.{◌≡◌, ◌+◌};
    ghost use Rattle.dk_host.specs.Steps.{MayPublish, PublishesBy};

    type Reply = (CommitRight<W>, u64);

    ghost may = { λ s pass history. (s.right.commits.parts ≡ 1) × (s.right.places.parts ≡ 1) × MayPublish W.opened pass history s.claimed s.finished s.prepared s.right.commits.amount s.right.places.amount };

    ghost gives = { λ s pass before reply added. (reply.0.commits.parts ≡ 1)
        × (reply.0.places.parts ≡ 1)
        × (reply.0.places.amount ≡ 0)
        × (reply.0.commits.amount ≡ s.right.commits.amount + 1)
        × PublishesBy W.opened pass s.claimed s.finished s.right.commits.amount before reply.1 added };

    fn apply(self, pass: u32, book: &mut WorldBook<W>) -> (CommitRight<W>, u64) {
        let Publish {
            claimed,
            finished,
            prepared,
            mut right,
        } = self;
        right.audit(&mut book.commits, &mut book.places);
        let run = claimed.run();
        let outcome = *finished.outcome();
        let committed = Committed {
            run,
            outcome: Snapshot::of(finished.outcome()),
        };
        let seq = book.core.publish(claimed, finished, prepared);
        right.count(&mut book.commits);
        right.let_go(&mut book.places);
        let event = Some(Event::Commit {
            pass,
            run,
            seq,
            outcome,
        });
        book.history.enter::<Call<'_, Committed, u64>, Publish<W>>(
            &Call {
                pass,
                ask: &committed,
                reply: &seq,
            },
            event,
        );
        let Committed { run: _, outcome: _ } = committed;
        (right, seq)
    }
}
