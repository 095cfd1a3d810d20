//! A view that counts how often it is asked.

use dk_txn::{ListView, View};
use dk_types::{Item, NoMemory, Read};

/// A list that answers, and how often it did.
#[derive(Drop)]
pub struct Counting {
    list: ListView,
    asked: u64,
}

impl Counting {
    /// A view that answers by this list, and was not asked yet.
    pub fn new(reads: Vec<(Item, Read)>) -> Counting {
        Counting {
            list: ListView::new(reads),
            asked: 0,
        }
    }

    /// How often the view was asked.
    pub fn asked(&self) -> u64 {
        self.asked
    }
}

impl View for Counting {
    ghost sights = { record { gave = λ view item read. Unit {0}; asked = λ u item v. Unit {0}; becomes = λ u v. Unit {0}; asking = λ u v item asked. tt; stays = λ v. tt; goes_on = λ u v w a b. tt; keeps = λ u v same item read h. tt } };

    fn read(&mut self, item: &Item) -> Result<Read, NoMemory> {
        self.asked = self.asked.saturating_add(1);
        self.list.read(item)
    }
}
