//! What a stop after each call leaves of a store that is made, filled and written anew.

use crate::journals::found_in;
use crate::open_home::OpenHome;
use crate::pieces::Pieces;
use crate::seen::Seen;
use crate::stores::{Played, world_after};
use dk_checkpoint::checkpoint;
use dk_image::encode_image;
use dk_journal::Journal;
use dk_recover::recover;
use dk_rows::Words;
use dk_types::{GameId, Side};
use std::alloc::Global;

/// `plays GAME START PAYLOADS STEPS ZERO ONE`: whether the files are these after the steps.
pub fn plays(alloc: Global, pieces: &Pieces, call: &mut Words<'_>) -> Option<String> {
    let played = Played::of(alloc, pieces, call, 0)?;
    let zero = pieces.next(alloc, call)?;
    let one = pieces.next(alloc, call)?;
    let is_zero = played.home.contents(Side::Zero) == zero.as_slice();
    let is_one = played.home.contents(Side::One) == one.as_slice();
    format!(in alloc; "{is_zero} {is_one}").ok()
}

/// Adds what each image of the first file is at each moment.
fn add_images(alloc: Global, home: &OpenHome, seen: &mut Seen) -> Option<()> {
    for moment in 0..=home.calls() {
        for (zero, _) in &home.images_at(alloc, moment)? {
            seen.add(found_in(alloc, zero)?)?;
        }
    }
    Some(())
}

/// `images GAME START PAYLOADS STEPS`: what the images of the first file are as files, with no call of the steps failing and with each.
pub fn images(alloc: Global, pieces: &Pieces, call: &mut Words<'_>) -> Option<String> {
    let steps = call.rest();
    let calls = Played::of(alloc, pieces, call, 0)?.home.calls();
    let mut seen = Seen::new(alloc);
    for failing in 0..=calls {
        let played = Played::of(alloc, pieces, &mut Words::of(steps), failing)?;
        add_images(alloc, &played.home, &mut seen)?;
    }
    seen.told(alloc)
}

/// How many commits these files hold, and the image of their world, if they hold one; no store yet has the empty world.
fn world_in(alloc: Global, game: &GameId, zero: &[u8], one: &[u8]) -> Option<(u64, Vec<u8>)> {
    let mut home = OpenHome::of(alloc, zero, one, 0)?;
    let found = recover(alloc, &mut home, game).ok()?;
    let image = encode_image(alloc, &found.durable).ok()?;
    Some((found.durable.commits, image.into_vec().ok()?))
}

/// The least number of commits that an image at this moment has, if each has the world of the known commits or of one more.
fn held(alloc: Global, pieces: &Pieces, played: &Played, known: u64, moment: u64) -> Option<u64> {
    let mut least = u64::MAX;
    for (zero, one) in &played.home.images_at(alloc, moment)? {
        let (commits, world) = world_in(alloc, &played.game, zero, one)?;
        let is_either = commits == known || commits == known.saturating_add(1);
        if !is_either || world != pieces.numbered(alloc, "image", commits)? {
            return None;
        }
        least = least.min(commits);
    }
    Some(least)
}

/// How many commits were acknowledged by this moment.
fn acknowledged(played: &Played, moment: u64) -> u64 {
    let mut count = 0u64;
    for mark in &played.marks {
        if *mark <= moment {
            count = count.saturating_add(1);
        }
    }
    count
}

/// Whether each image from this moment on has the world of the commits that were acknowledged by then, or of one more, and what all
/// images have does not fall. `before` were acknowledged before the first moment.
fn is_kept(alloc: Global, pieces: &Pieces, played: &Played, before: u64, from: u64) -> bool {
    let mut least = before;
    for moment in from..=played.home.calls() {
        let known = before.saturating_add(acknowledged(played, moment));
        match held(alloc, pieces, played, known, moment) {
            Some(commits) if commits >= least => least = commits,
            _ => return false,
        }
    }
    true
}

/// `stops GAME START PAYLOADS STEPS BEFORE`: how many commits are acknowledged where no call fails; and with how many failing calls, or
/// none, an image after some call lacks what is acknowledged, or has more than one commit more.
pub fn stops(alloc: Global, pieces: &Pieces, call: &mut Words<'_>) -> Option<String> {
    let steps = call.rest();
    let whole = Played::of(alloc, pieces, call, 0)?;
    let before = call.number()?;
    let mut lost = 0u64;
    for failing in 0..=whole.home.calls() {
        let played = Played::of(alloc, pieces, &mut Words::of(steps), failing)?;
        if !is_kept(alloc, pieces, &played, before, failing.saturating_sub(1)) {
            lost = lost.saturating_add(1);
        }
    }
    format!(in alloc; "{} commits, lost by {lost}", whole.marks.len()).ok()
}

/// `epoch EPOCH`: what writing an empty store of this epoch anew answers, and how many calls it makes.
pub fn epoch(alloc: Global, pieces: &Pieces, call: &mut Words<'_>) -> Option<String> {
    let game = GameId::new(b"g").ok()?;
    let world = world_after(alloc, pieces, 0)?;
    let epoch = call.number()?;
    if epoch >= 1 << 62 {
        return None;
    }
    let journal = Journal::standing(Side::Zero, epoch, 65);
    let mut home = OpenHome::of(alloc, b"", b"", 0)?;
    let outcome = checkpoint(alloc, &mut home, &game, &world, &journal, Side::Zero);
    let calls = home.calls();
    match outcome {
        Ok(_) => format!(in alloc; "written by {calls} calls").ok(),
        Err(refused) => format!(in alloc; "{refused}, {calls} calls").ok(),
    }
}
