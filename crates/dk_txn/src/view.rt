//! Where a run's reads come from.
ghost use Rattle.std.specs.Prelude.{IfOk};

use dk_types::{Item, NoMemory, Read};

/// A world, or a history of worlds, that answers reads. The answers may come from several moments.
pub trait View {
    ghost use Rattle.dk_txn.specs.Sights.{Sights};

    /// Which reads it may have given, and which view it is after calls.
    ghost sights: { Sights Self };

    /// The answer to an item, and what was seen of it. It is one of those that the view may have given; and the view
    /// is what asking for this item makes of it, so that what was one of them stays one.
    fn read(&mut self, item: &Item) -> Result<Read, NoMemory>
        ensures gives { IfOk result (λ read. sights.gave self.new item.now read) }
        ensures becomes { sights.asked self.old item.now self.new };
}
