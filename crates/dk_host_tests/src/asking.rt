//! What is asked of a host, one after another.
ghost use Rattle.std.specs.Prelude.{◌≡◌};

use crate::stage::Stage;
use dk_disk::Home;
use dk_game::Game;
use dk_host::{Hosting, WorldBook};
use dk_rows::Words;
use dk_turn::{Naming, Pass};
use std::sync::Wait;
use std::thread::Threads;

impl<G: Game, W: Hosting, J: Naming, M: Home, R: Wait> Stage<'_, G, W, J, M, R> {
    /// What is answered to one pass. None where the words ask for nothing, or there is no memory.
    pub(crate) fn answer_one(&self, pass: &mut Pass<WorldBook<W>, J>, ask: &str) -> Option<String>
        requires rules { W.opened.rules ≡ G.rules self.now.game.now }
    {
        let mut call = Words::of(ask);
        match call.word()? {
            "connect" => self.connect(pass, &mut call),
            "send" => self.send(pass, &mut call),
            "hand" => self.hand(pass, &mut call),
            "await" => self.await_message(pass, &mut call),
            "read" => self.read(pass, &mut call),
            "since" => self.since(pass, &mut call),
            "claim" => self.claim_only(pass),
            "run" => self.run(pass),
            "checkpoint" => self.checkpoint(pass),
            "durable" => self.durable(pass),
            "entries" => self.entries(pass, &mut call),
            word => self.turn_word(word),
        }
    }

    /// What is answered to one pass, ask by ask.
    pub(crate) fn answer_each(&self, pass: &mut Pass<WorldBook<W>, J>, asks: &str) -> Option<String>
        requires rules { W.opened.rules ≡ G.rules self.now.game.now }
    {
        let mut text = String::new(self.alloc);
        for ask in asks.split(", ") {
            let answer = self.answer_one(pass, ask)?;
            let answer = answer.as_str().trim_end();
            let front = if text.is_empty() { "" } else { ", " };
            let answer = if answer.is_empty() { "none" } else { answer };
            write!(text, "{front}{answer}").ok()?;
        }
        Some(text)
    }
}

impl<
    G: Game + Sync,
    W: Hosting + Send + Sync,
    J: Naming + Send + Sync,
    M: Home + Send,
    R: Threads + Wait + Sync,
> Stage<'_, G, W, J, M, R> {
    /// What is answered to both passes, or to the first.
    fn answer(&self, passes: &mut [Pass<WorldBook<W>, J>], ask: &str) -> Option<String>
        requires rules { W.opened.rules ≡ G.rules self.now.game.now }
    {
        if ask == "together" {
            return self.work_together(passes);
        }
        if passes.len() < 2 {
            return None;
        }
        let (first_half, second_half) = passes.split_at_mut(1);
        let (one, other) = (&mut first_half[0], &mut second_half[0]);
        match ask.split_once(" | ") {
            Some((first, second)) => self.answer_both(one, first, other, second),
            None if ask == "overtake" => self.overtake(one, other),
            None => self.answer_one(one, ask),
        }
    }

    /// What is answered to the rows, one by one, until there is no answer.
    pub(crate) fn answers(
        &self,
        passes: &mut [Pass<WorldBook<W>, J>],
        rows: &[String],
    ) -> Vec<String>
        requires rules { W.opened.rules ≡ G.rules self.now.game.now }
    {
        let mut answers = Vec::new(self.alloc);
        for row in rows {
            let row = row.as_str();
            let ask = row.split_once(" = ").unwrap_or((row, "")).0;
            let Some(answer) = self.answer(passes, ask) else {
                break;
            };
            if answers.push(answer).is_err() {
                break;
            }
        }
        answers
    }
}
