//! A store that is opened or made, gets commits and is written anew.
ghost use Rattle.std.specs.Prelude.{◌≡◌};
ghost use Rattle.dk_disk.specs.Opening.{IsOpen};
ghost use Rattle.dk_store_file_tests.specs.OpenHomes.{IsOpen-prop};

use crate::open_home::OpenHome;
use crate::pieces::Pieces;
use dk_checkpoint::checkpoint;
use dk_image::decode_image;
use dk_journal::{Journal, create};
use dk_recover::recover;
use dk_rows::Words;
use dk_types::{Blob, Durable, GameId, Side};
use std::alloc::Global;

/// The home of a store after the steps, and by which call each commit was acknowledged.
#[derive(Drop)]
pub struct Played {
    pub game: GameId,
    pub home: OpenHome,
    pub marks: Vec<u64>,
    ghost is_open: { IsOpen home.inner.opening } by { IsOpen-prop home.inner.opening },
}

/// A store's journal, the file that stands, and how many commits it has.
#[derive(Drop)]
struct Store {
    journal: Journal,
    side: Side,
    commits: u64,
}

/// The store of a home, made where there is none yet.
fn opened(alloc: Global, home: &mut OpenHome, game: &GameId) -> Option<Store>
    requires open { IsOpen home.old.inner.opening }
    ensures same { home.new.inner.opening ≡ home.old.inner.opening }
{
    let found = recover(alloc, home, game).ok()?;
    let journal = match found.store {
        Some(journal) => journal,
        None => create(alloc, home, found.side, game, 0).ok()?,
    };
    Some(Store {
        journal,
        side: found.side,
        commits: found.durable.commits,
    })
}

/// The world after so many commits.
pub fn world_after(alloc: Global, pieces: &Pieces, commits: u64) -> Option<Durable> {
    let image = Blob::from_vec(pieces.numbered(alloc, "image", commits)?);
    decode_image(alloc, &image, 2).ok()
}

/// Writes a store anew.
fn write_anew(
    alloc: Global,
    pieces: &Pieces,
    played: &mut Played,
    store: &mut Store,
) -> Option<()> {
    let world = world_after(alloc, pieces, store.commits)?;
    let (home, game) = (&mut played.home, &played.game);
    let made = checkpoint(alloc, home, game, &world, &store.journal, store.side).ok()?;
    (store.journal, store.side) = made;
    Some(())
}

/// Puts the next payload of this name behind the others.
fn commit(
    alloc: Global,
    pieces: &Pieces,
    played: &mut Played,
    store: &mut Store,
    payloads: &str,
) -> Option<()> {
    let number = store.commits.saturating_add(1);
    let payload = Blob::from_vec(pieces.numbered(alloc, payloads, number)?);
    if payload.as_slice().len() > 4096 || store.journal.format() != 2 {
        return None;
    }
    store.journal.append(&mut played.home, &payload).ok()?;
    store.commits = number;
    played.marks.push(played.home.calls()).ok()
}

impl Played {
    /// `GAME START PAYLOADS STEPS`: what the first file holds before, the name of the payloads of the commits, and the steps until a call
    /// fails: `c` is a commit, and `w` writes the store anew.
    pub fn of(
        alloc: Global,
        pieces: &Pieces,
        call: &mut Words<'_>,
        failing: u64,
    ) -> Option<Played> {
        let game = GameId::new(call.word()?.as_bytes()).ok()?;
        let start = pieces.next(alloc, call)?;
        let mut played = Played {
            game,
            home: OpenHome::of(alloc, &start, b"", failing)?,
            marks: Vec::new(alloc),
        };
        let payloads = call.word()?;
        let _steps = played.each_step(alloc, pieces, payloads, call.word()?);
        Some(played)
    }

    fn each_step(
        &mut self,
        alloc: Global,
        pieces: &Pieces,
        payloads: &str,
        steps: &str,
    ) -> Option<()> {
        let mut store = opened(alloc, &mut self.home, &self.game)?;
        for step in steps.chars() {
            match step {
                'c' => commit(alloc, pieces, self, &mut store, payloads)?,
                _ => write_anew(alloc, pieces, self, &mut store)?,
            }
        }
        Some(())
    }
}
