//! Reads and the moment.

use crate::book::WorldBook;
use crate::hosting::Hosting;
use crate::steps::Call;
use dk_turn::{NotingAll, Step};
use dk_types::{Event, Item, NoMemory, Read};

/// A read.
#[derive(Drop)]
pub(crate) struct ReadItem<'a> {
    pub(crate) item: &'a Item,
}

impl<'a, W: Hosting> Step<WorldBook<W>> for ReadItem<'a> {
    ghost use Rattle.dk_host.specs.Steps.{Reads};

    type Reply = Result<Read, NoMemory>;

    ghost may = { λ _ _ _. Unit {0} };

    ghost gives = { λ s pass before reply added. Reads W.opened s.item.now before reply added };

    fn apply(self, _pass: u32, book: &mut WorldBook<W>) -> Result<Read, NoMemory> {
        book.core.read(self.item)
    }

    fn wakes(_reply: &Result<Read, NoMemory>) -> bool {
        false
    }
}

/// A look at how many events are kept.
#[derive(Drop)]
pub(crate) struct CountKept;

impl<W: Hosting> Step<WorldBook<W>> for CountKept {
    ghost use Rattle.dk_host.specs.Steps.{CountsKept};

    type Reply = u64;

    ghost may = { λ _ _ _. Unit {0} };

    ghost gives = { λ _ _ before reply added. CountsKept W.opened W.keeps before reply added };

    fn apply(self, _pass: u32, book: &mut WorldBook<W>) -> u64 {
        book.history.len()
    }

    fn wakes(_reply: &u64) -> bool {
        false
    }
}

/// Time goes on.
#[derive(Drop)]
pub(crate) struct Tick {
    pub(crate) moment: u64,
}

impl<'a> NotingAll<Call<'a, u64, ()>, Event> for Tick {
    ghost use Rattle.std.specs.Prelude.{[], ◌∷◌};
    ghost use Rattle.dk_types.specs.declared.event.Event.TheVariants as event;

    ghost entries = { λ t. event.Tick t.pass t.ask.now ∷ [] };
}

impl<W: Hosting> Step<WorldBook<W>> for Tick {
    ghost use Rattle.dk_host.specs.Steps.{Ticks};

    type Reply = Result<(), NoMemory>;

    ghost may = { λ _ _ _. Unit {0} };

    ghost gives = { λ s pass before reply added. Ticks W.opened W.keeps pass s.moment before reply added };

    fn apply(self, pass: u32, book: &mut WorldBook<W>) -> Result<(), NoMemory> {
        book.history.make_room()?;
        book.core.tick(self.moment);
        let event = Some(Event::Tick {
            pass,
            moment: self.moment,
        });
        book.history.enter::<Call<'_, u64, ()>, Tick>(
            &Call {
                pass,
                ask: &self.moment,
                reply: &(),
            },
            event,
        );
        Ok(())
    }

    fn wakes(reply: &Result<(), NoMemory>) -> bool {
        reply.is_ok()
    }
}
