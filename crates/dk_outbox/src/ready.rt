//! A message that brings its room along.
ghost use Rattle.std.specs.Prelude.{◌≡◌, ◌∷◌, [], IfOk};

use dk_types::{NoMemory, Out};
use std::alloc::Global;
use std::collections::LinkedList;
use std::marker::Model;

/// A message with the room that it takes in an outbox.
#[derive(Drop)]
pub struct Ready {
    cell: LinkedList<Out>,
}

impl Model for Ready {
    ghost use Rattle.std.specs.Prelude.{◌≡◌, ◌∷◌, []};
    ghost use Rattle.dk_types.specs.declared.job.Out.{Out};
    ghost use Rattle.dk_outbox.specs.Outgoing.{out_of_cell};

    ghost Value = { Out };

    ghost view = { λ a. out_of_cell a.cell };

    ghost invariant = { λ a. a.cell ≡ out_of_cell a.cell ∷ [] };
}

impl Ready {
    /// Makes the room of a message.
    pub fn new(alloc: Global, out: Out) -> Result<Ready, NoMemory>
        ensures { IfOk result (λ ready. ready ≡ out) }
    {
        let mut cell = LinkedList::new(alloc);
        cell.push_back(out)?;
        Ok(Ready { cell })
    }

    /// Puts another message into the room.
    pub(crate) fn fill(&mut self, out: Out)
        ensures { self.new ≡ out }
    {
        match self.cell.front_mut() {
            Some(place) => *place = out,
            None => unreachable!(),
        }
    }

    /// The message in its room, as a list of one.
    pub(crate) fn into_cell(self) -> LinkedList<Out>
        ensures { result ≡ self ∷ [] }
    {
        let Ready { cell } = self;
        cell
    }
}
