//! The words of a command line.
ghost use Rattle.std.specs.Prelude.{◌≡◌, ◌<◌, ◌∷◌, ◌++◌, [], length, slice_get, nat_eq, Some, OnOk, OnErr};
ghost use Rattle.std.specs.Cmp.Lexicographic.{pointwise, lists_per, lists_equiv, nat_list_eq_equiv};
ghost use Rattle.std.specs.Cmp;

use crate::fault::NoMemory;
use std::alloc::{AllocError, Global};
use std::marker::Model;

/// The words after a program's name, seen by contracts as a list of texts.
#[derive(Debug, Drop)]
pub struct Words {
    words: Vec<String>,
}

impl Model for Words {
    ghost use Rattle.std.specs.Prelude.{ℕ, List, map, string_bytes};

    ghost Value = { List (List ℕ) };

    ghost view = { λ w. map (λ s. string_bytes s) w.words.items };
}

impl Words {
    /// No words. Takes no memory.
    pub fn new(alloc: Global) -> Words
        ensures { result ≡ [] }
    {
        Words {
            words: Vec::new(alloc),
        }
    }

    /// Puts a copy of the word last. Refused, it changes nothing.
    pub fn push(&mut self, word: &str) -> Result<(), NoMemory>
        ensures ok { OnOk result (self.new ≡ self.old ++ word.now ∷ []) }
        ensures err { OnErr result (self.new ≡ self.old) }
    {
        let alloc = *self.words.allocator();
        let copy = String::from_str(alloc, word)?;
        self.words.push(copy)?;
        Ok(())
    }

    /// How many words there are.
    pub fn count(&self) -> u64
        ensures { result ≡ length self.now }
    {
        self.words.len() as u64
    }

    /// The word at this place, from 0.
    pub fn word(&self, at: u64) -> &str
        requires { at < length self.now }
        ensures { slice_get self.now at ≡ Some result.now }
    {
        self.words[at as usize].as_str()
    }
}

impl Clone for Words {
    ghost is_clone = { λ old new. new ≡ old };

    fn clone(&self) -> Result<Words, AllocError> {
        let words = self.words.clone()?;
        Ok(Words { words })
    }
}

impl PartialEq for Words {
    ghost eq = { pointwise (pointwise nat_eq) };

    ghost laws = { lists_per (Cmp.partial_equiv_from_equiv nat_list_eq_equiv) };

    fn eq(&self, other: &Words) -> bool {
        self.words == other.words
    }
}

impl Eq for Words {
    ghost laws = { lists_equiv nat_list_eq_equiv };
}
