//! What the cases of a row answered.

use std::alloc::Global;

/// Each answer once, in the order in which they came, and how many cases there were.
#[derive(Drop)]
pub struct Seen {
    answers: Vec<String>,
    pub cases: u64,
}

impl Seen {
    /// Of no case.
    pub fn new(alloc: Global) -> Seen {
        Seen {
            answers: Vec::new(alloc),
            cases: 0,
        }
    }

    /// Adds a case.
    pub fn add(&mut self, answer: String) -> Option<()> {
        self.cases = self.cases.saturating_add(1);
        if self.answers.contains(&answer) {
            Some(())
        } else {
            self.answers.push(answer).ok()
        }
    }

    /// Each answer, with `or` between them.
    pub fn told(&self, alloc: Global) -> Option<String> {
        let mut text = String::new(alloc);
        for answer in &self.answers {
            if !text.is_empty() {
                text.push_str(" or ").ok()?;
            }
            text.push_str(answer.as_str()).ok()?;
        }
        Some(text)
    }
}
