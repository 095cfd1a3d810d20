//! Claims.

use crate::book::WorldBook;
use crate::hosting::Hosting;
use crate::keeping::{claim_event, kept_job};
use crate::steps::Call;
use dk_core::{ClaimRefused, Claimed};
use dk_turn::{NotingAll, Step};
use dk_types::{Event, RunNo};

/// A claim.
#[derive(Drop)]
pub(crate) struct Claim;

impl<'a> NotingAll<Call<'a, (), Result<Option<Claimed>, ClaimRefused>>, Event> for Claim {
    ghost use Rattle.dk_host.specs.Calls.{claim_events};

    ghost entries = { λ t. claim_events t.pass t.reply.now };
}

impl<W: Hosting> Step<WorldBook<W>> for Claim {
    ghost use Rattle.dk_host.specs.Steps.{Claims};

    type Reply = Result<Option<Claimed>, ClaimRefused>;

    ghost may = { λ _ _ _. Unit {0} };

    ghost gives = { λ s pass before reply added. Claims W.opened pass before reply added };

    fn apply(self, pass: u32, book: &mut WorldBook<W>) -> Result<Option<Claimed>, ClaimRefused> {
        let job = kept_job(&book.history, &book.core)?;
        book.history.make_room()?;
        let reply = book.core.claim(pass);
        let event = claim_event(pass, job, &reply);
        book.history
            .enter::<Call<'_, (), Result<Option<Claimed>, ClaimRefused>>, Claim>(
                &Call {
                    pass,
                    ask: &(),
                    reply: &reply,
                },
                event,
            );
        reply
    }

    // A claim frees nothing that another pass may wait for.
    fn wakes(_reply: &Result<Option<Claimed>, ClaimRefused>) -> bool {
        false
    }
}

/// A claim given back.
#[derive(Drop)]
pub(crate) struct Release {
    pub(crate) claimed: Claimed,
}

impl<'a> NotingAll<Call<'a, RunNo, ()>, Event> for Release {
    ghost use Rattle.std.specs.Prelude.{[], ◌∷◌};
    ghost use Rattle.dk_types.specs.declared.event.Event.TheVariants as event;

    ghost entries = { λ t. event.Release t.pass t.ask.now ∷ [] };
}

impl<W: Hosting> Step<WorldBook<W>> for Release {
    ghost use Rattle.std.specs.Prelude.{[], ◌∷◌};
    ghost use Rattle.dk_types.specs.declared.event.Event.TheVariants as event;
    ghost use Rattle.dk_host.specs.Steps.{Adds, MayEnd};

    type Reply = ();

    ghost may = { λ s pass history. MayEnd W.opened pass history s.claimed };

    ghost gives = { λ s pass before reply added. Adds W.opened (event.Release pass s.claimed.run ∷ []) before added };

    fn apply(self, pass: u32, book: &mut WorldBook<W>) {
        let Release { claimed } = self;
        let run = claimed.run();
        book.core.release(claimed);
        let event = Some(Event::Release { pass, run });
        book.history.enter::<Call<'_, RunNo, ()>, Release>(
            &Call {
                pass,
                ask: &run,
                reply: &(),
            },
            event,
        );
    }
}
