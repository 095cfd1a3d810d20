//! The world as a run reads it.
ghost use Rattle.std.specs.Prelude.{◌≡◌};

use crate::durable::world::StampedWorld;
use dk_txn::View;
use dk_types::{Item, NoMemory, Read};

/// The world, to be read by a run.
#[derive(Drop)]
pub struct WorldLook<'a> {
    world: &'a StampedWorld,
}

impl StampedWorld {
    /// The world as a view. Each of its reads is what the world answers, and what is seen, as it stands.
    pub fn look(&self) -> WorldLook<'_>
        ensures { result.world.now ≡ self.now }
    {
        WorldLook { world: self }
    }
}

impl View for WorldLook<'_> {
    ghost use Rattle.std.specs.Prelude.{◌≡◌};
    ghost use Rattle.dk_txn.specs.Sights.{steady};
    ghost use Rattle.dk_core.specs.StampedWorlds.{read_now};

    ghost sights = { steady (λ look item read. read ≡ read_now look.world.now item) };

    fn read(&mut self, item: &Item) -> Result<Read, NoMemory> {
        self.world.read(item)
    }
}
