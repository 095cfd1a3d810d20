//! Claims and commits by hand, also of a run that another pass overtakes.
ghost use Rattle.std.specs.Prelude.{◌≡◌, IfSome, IfErr};
ghost use Rattle.dk_host.specs.Calls.{IsClaimOf, IsHonestAt};

use crate::stage::Stage;
use dk_core::Claimed;
use dk_disk::Home;
use dk_game::Game;
use dk_host::{CommitRefused, Hosting, Why, WorldBook};
use dk_turn::{Naming, Pass};
use dk_txn::Finished;
use dk_workers::run_claimed;
use std::sync::Wait;

impl<G: Game, W: Hosting, J: Naming, M: Home, R: Wait> Stage<'_, G, W, J, M, R> {
    // The job that is claimed next.
    fn claim(&self, pass: &mut Pass<WorldBook<W>, J>) -> Option<Claimed>
        ensures { IfSome result (IsClaimOf W.opened pass.new) }
    {
        match self.host.claim(self.rt, pass) {
            Ok(Some(claimed)) => Some(claimed),
            _ => None,
        }
    }

    // Where it is refused the claim stands still.
    fn commit(
        &self,
        pass: &mut Pass<WorldBook<W>, J>,
        claimed: Claimed,
        finished: Finished,
    ) -> Result<u64, CommitRefused>
        requires claim { IsClaimOf W.opened pass.old claimed }
        requires honest { IsHonestAt W.opened pass.old.front claimed finished }
        ensures { IfErr result (λ refused. IsClaimOf W.opened pass.new refused.claimed) }
    {
        match self.host.commit(self.rt, pass, claimed, finished) {
            Ok(seq) => Ok(seq),
            Err(shown) => Err(shown.refused),
        }
    }

    // A claimed job is run, and its commit is asked for.
    fn try_run(
        &self,
        pass: &mut Pass<WorldBook<W>, J>,
        claimed: Claimed,
    ) -> Option<Result<u64, CommitRefused>>
        requires rules { W.opened.rules ≡ G.rules self.now.game.now }
        requires claim { IsClaimOf W.opened pass.old claimed }
        ensures { IfSome result (λ answer. IfErr answer (λ refused. IsClaimOf W.opened pass.new refused.claimed)) }
    {
        match run_claimed(self.rt, self.alloc, self.game, self.host, pass, &claimed) {
            Ok(finished) => Some(self.commit(pass, claimed, finished)),
            Err(_) => None,
        }
    }

    // A claimed job is run and committed, and else given back.
    fn end_claimed(&self, pass: &mut Pass<WorldBook<W>, J>, claimed: Claimed) -> Option<String>
        requires rules { W.opened.rules ≡ G.rules self.now.game.now }
        requires claim { IsClaimOf W.opened pass.old claimed }
    {
        match self.try_run(pass, claimed)? {
            Ok(seq) => format!(in self.alloc; "commit {seq}").ok(),
            Err(refused) => {
                let CommitRefused { claimed, why } = refused;
                self.host.release(self.rt, pass, claimed);
                format!(in self.alloc; "{why:?}").ok()
            }
        }
    }

    // Where there was no memory for a commit, or a read no longer stood, the claim is run anew.
    fn end_refused(
        &self,
        pass: &mut Pass<WorldBook<W>, J>,
        refused: CommitRefused,
    ) -> Option<String>
        requires rules { W.opened.rules ≡ G.rules self.now.game.now }
        requires claim { IsClaimOf W.opened pass.old refused.claimed }
    {
        let CommitRefused { claimed, why } = refused;
        if matches!(why, Why::NoMemory | Why::Retry { .. }) {
            let ended = self.end_claimed(pass, claimed)?;
            return format!(in self.alloc; "{why:?}, {ended}").ok();
        }
        self.host.release(self.rt, pass, claimed);
        format!(in self.alloc; "{why:?}").ok()
    }

    // What comes of the commit of a run.
    fn end_tried(
        &self,
        pass: &mut Pass<WorldBook<W>, J>,
        tried: Result<u64, CommitRefused>,
    ) -> Option<String>
        requires rules { W.opened.rules ≡ G.rules self.now.game.now }
        requires claim { IfErr tried (λ refused. IsClaimOf W.opened pass.old refused.claimed) }
    {
        match tried {
            Ok(seq) => format!(in self.alloc; "commit {seq}").ok(),
            Err(refused) => self.end_refused(pass, refused),
        }
    }

    /// `run`: the next job is claimed, run and committed.
    pub(crate) fn run(&self, pass: &mut Pass<WorldBook<W>, J>) -> Option<String>
        requires rules { W.opened.rules ≡ G.rules self.now.game.now }
    {
        let Some(claimed) = self.claim(pass) else {
            return String::from_str(self.alloc, "nothing").ok();
        };
        let tried = self.try_run(pass, claimed)?;
        self.end_tried(pass, tried)
    }

    /// `claim`: the run that is claimed next, which is given back.
    pub(crate) fn claim_only(&self, pass: &mut Pass<WorldBook<W>, J>) -> Option<String> {
        let claimed = self.claim(pass)?;
        let run = claimed.run().0;
        self.host.release(self.rt, pass, claimed);
        format!(in self.alloc; "run {run}").ok()
    }

    /// `overtake`: both passes claim a job. The first is run, then the second is run and committed, and then the first's commit is
    /// asked for.
    pub(crate) fn overtake(
        &self,
        one: &mut Pass<WorldBook<W>, J>,
        other: &mut Pass<WorldBook<W>, J>,
    ) -> Option<String>
        requires rules { W.opened.rules ≡ G.rules self.now.game.now }
    {
        let first = self.claim(one)?;
        let second = self.claim(other)?;
        self.overtake_claimed(one, first, other, second)
    }

    fn overtake_claimed(
        &self,
        one: &mut Pass<WorldBook<W>, J>,
        first: Claimed,
        other: &mut Pass<WorldBook<W>, J>,
        second: Claimed,
    ) -> Option<String>
        requires rules { W.opened.rules ≡ G.rules self.now.game.now }
        requires first { IsClaimOf W.opened one.old first }
        requires second { IsClaimOf W.opened other.old second }
    {
        let runs = (first.run().0, second.run().0);
        let ran = run_claimed(self.rt, self.alloc, self.game, self.host, one, &first);
        let second = self.end_claimed(other, second)?;
        let Ok(finished) = ran else {
            return None;
        };
        let tried = self.commit(one, first, finished);
        let first = self.end_tried(one, tried)?;
        format!(in self.alloc; "runs {} and {}: {second}; {first}", runs.0, runs.1).ok()
    }
}
