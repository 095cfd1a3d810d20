//! The words of a row.

use std::alloc::Global;

/// The words of a call that are not read yet.
#[derive(Clone, Copy, Debug)]
pub struct Words<'a> {
    rest: &'a str,
}

impl<'a> Words<'a> {
    /// The words of a line.
    pub fn of(text: &'a str) -> Words<'a> {
        Words { rest: text }
    }

    /// All that is not read yet.
    pub fn rest(&self) -> &'a str {
        self.rest
    }

    /// The next word, if there is one.
    pub fn word(&mut self) -> Option<&'a str> {
        match self.rest.split_once(" ") {
            Some((word, rest)) => {
                self.rest = rest;
                Some(word)
            }
            None => self.last(),
        }
    }

    fn last(&mut self) -> Option<&'a str> {
        let word = self.rest;
        self.rest = "";
        if word.is_empty() { None } else { Some(word) }
    }

    /// A number, in decimal digits or, behind `0x`, in hexadecimal ones.
    pub fn number(&mut self) -> Option<u64> {
        let word = self.word()?;
        match word.strip_prefix("0x") {
            Some(digits) => u64::from_str_radix(digits, 16).ok(),
            None => word.parse::<u64>().ok(),
        }
    }

    /// A number below 2^32.
    pub fn small(&mut self) -> Option<u32> {
        u32::try_from(self.number()?).ok()
    }

    /// A word in which `x*9` stands for nine times `x`, and `a+x*9` for `a` and these.
    pub fn text(&mut self, alloc: Global) -> Option<String> {
        let word = self.word()?;
        match word.split_once("+") {
            Some((front, back)) => {
                let mut text = repeated(alloc, front)?;
                text.push_str(repeated(alloc, back)?.as_str()).ok()?;
                Some(text)
            }
            None => repeated(alloc, word),
        }
    }
}

fn repeated(alloc: Global, word: &str) -> Option<String> {
    match word.split_once("*") {
        Some((part, times)) => part.repeat(alloc, times.parse::<usize>().ok()?).ok(),
        None => String::from_str(alloc, word).ok(),
    }
}
