//! A play on a host that is opened for it, and closed behind it.
ghost use Rattle.std.specs.Prelude.{◌≡◌, ◌⊎◌, ◌+◌, ◌<◌, [], ◌∷◌, Some, ℕ, length, true, IsTrue};
ghost use Rattle.std.specs.FinSet as sets;
ghost use Rattle.dk_model.specs.Lawful.{AreLawful};
ghost use Rattle.dk_model.specs.Scripts.{AllStand};
ghost use Rattle.dk_notice.specs.Notices.{nothing_told, said_on};
ghost use Rattle.dk_core.specs.Listings.{world_of};
ghost use Rattle.dk_play_laws.specs.BegunLaw.{HaveBegun};
ghost use Rattle.dk_play_laws.specs.Seen.{AreBehind, AreNumbered};
ghost use Rattle.dk_workers.specs.Played.{IsPlayOn, IsStaged, IsUnopened};

use super::Played;
use super::closing::{Staged, reported};
use super::fault::PlayFault;
use super::phases::play_phases;
use super::saving::{Saved, save};
use crate::gate::Gate;
use dk_disk::Home;
use dk_game::Game;
use dk_host::{Host, Hosting, OpenedStore, WorldBook};
use dk_model::Line;
use dk_notice::NoticeBoard;
use dk_turn::{Naming, Pass, TurnBuilder};
use dk_types::Listed;
use std::alloc::Global;
use std::sync::{Wait, ledger};
use std::thread::Threads;

/// Plays all phases, and then writes the store anew where that is asked.
fn stage<
    G: Game + Sync,
    W: Hosting + Send + Sync,
    J: Naming + Send + Sync,
    M: Home + Send,
    T: Gate + Sync,
    R: Threads + Wait + Sync,
>(
    rt: &R,
    alloc: Global,
    host: &Host<W, J, M>,
    main: &mut Pass<WorldBook<W>, J>,
    workers: &mut [Pass<WorldBook<W>, J>],
    game: &G,
    gate: &T,
    script: &[Listed<Line>],
    asked: bool,
) -> Result<Staged, PlayFault>
    requires rules { W.opened.rules ≡ G.rules game.now }
    requires lawful { AreLawful W.opened.rules }
    requires budget { (most : ℕ) × (W.opened.budget ≡ Some most) }
    requires keeps { IsTrue W.keeps }
    requires count { J.name.passes ≡ length workers.old + 1 }
    requires numbered { AreNumbered 0 workers.old }
    requires number { main.old.number ≡ length workers.old }
    requires behind { AreBehind workers.old main.old.front }
    requires fresh { main.old.front ≡ [] }
    requires stand { AllStand sets.empty script.now }
    ensures staged { IsStaged asked W.opened ([] ∷ script.now) (λ s. s.marks.items) (λ s. s.saved) result workers.new main.new }
    ensures begun { HaveBegun ([] ∷ script.now) workers.new main.new }
    ensures size { length workers.new ≡ length workers.old }
{
    let marks = match play_phases(rt, alloc, host, main, workers, game, gate, script) {
        Ok(marks) => marks,
        Err(fault) => return Err(fault),
    };
    if !asked {
        let saved = Saved::Unasked;
        return Ok(Staged { marks, saved });
    }
    match save(rt, host, main) {
        Ok(saved) => Ok(Staged { marks, saved }),
        Err(fault) => Err(fault),
    }
}

/// Opens a host on the store, plays the script on it, and closes it. `before` is the count of faults of before the play.
pub(crate) fn play_on_turn<
    W: Hosting + Send + Sync,
    J: Naming + Send + Sync,
    G: Game + Sync,
    M: Home + Send,
    T: Gate + Sync,
    R: Threads + Wait + Sync,
>(
    rt: &R,
    alloc: Global,
    blank: TurnBuilder<WorldBook<W>>,
    commits: ledger::Blank,
    places: ledger::Blank,
    board: NoticeBoard,
    game: &G,
    script: &[Listed<Line>],
    store: OpenedStore<M>,
    workers: u32,
    budget: u64,
    asked: bool,
    before: u64,
    gate: &T,
) -> Played<M>
    requires name { blank ≡ J.name }
    requires passes { J.name.passes ≡ workers + 1 }
    requires commits { (commits.name ≡ W.commits) × (commits.parts ≡ 1) }
    requires places { (places.name ≡ W.places) × (places.parts ≡ 1) }
    requires board { board ≡ said_on W.board nothing_told }
    requires rules { W.opened.rules ≡ G.rules game.now }
    requires durable { world_of store.durable ≡ W.opened.durable }
    requires budget { W.opened.budget ≡ Some budget }
    requires began { M.past store.home ≡ W.began }
    requires first { store.journal.epoch ≡ W.first }
    requires opening { M.opening store.home ≡ W.opening }
    requires counted { M.counted store.home ≡ W.counted }
    requires before { before ≡ W.counted }
    requires keeps { W.keeps ≡ true }
    requires stand { AllStand sets.empty script.now }
    ensures play { IsUnopened store.home result.home result.text ⊎ IsPlayOn W.opened workers asked script.now M.tells W.began (M.past result.home) W.first before (M.counted result.home) result.text }
    ensures opening { M.opening result.home ≡ W.opening }
{
    let opened = Host::<W, J, M>::open(
        alloc,
        blank,
        commits,
        places,
        board,
        store,
        Some(budget),
        true,
    );
    let (host, mut passes) = match opened {
        Ok(opened) => opened,
        Err(refused) => {
            return Played {
                home: refused.home,
                text: Err(PlayFault::NoMemory),
            };
        }
    };
    let Some(mut main) = passes.pop() else {
        unreachable!();
    };
    let staged = stage(
        rt,
        alloc,
        &host,
        &mut main,
        passes.as_mut_slice(),
        game,
        gate,
        script,
        asked,
    );
    passes.push_reserved(main);
    let closed = host.close(passes);
    let text = reported::<W, M>(alloc, &closed, staged, workers, asked, script, before);
    Played {
        home: closed.home,
        text,
    }
}
