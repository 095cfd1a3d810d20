//! The store, written anew behind the last phase.
ghost use Rattle.std.specs.Prelude.{◌≡◌, ◌<◌, [], Bool, IfErr, IfOk, IsTrue};
ghost use Rattle.std.specs.List.{All};
ghost use Rattle.dk_model.specs.Legal.{pass_of};
ghost use Rattle.dk_workers.specs.Faults.{IsWorkFault};
ghost use Rattle.dk_workers.specs.Played.{IsSavedAt, IsShown};
ghost use Rattle.dk_workers.specs.Lines.{PassEnters};

use super::fault::PlayFault;
use dk_disk::Home;
use dk_host::{CheckpointRefused, Host, Hosting, WorldBook};
use dk_turn::{Naming, Pass};
use dk_types::limits::NUMBERS_END;
use std::sync::Wait;

/// What became of the store behind the last phase.
#[derive(Clone, Copy, Debug, Drop, PartialEq, Eq)]
pub(crate) enum Saved {
    /// It was not to be written anew.
    Unasked,
    Anew,
    /// Its image would be too long, so it stands as it stood.
    TooLarge,
    /// It was written anew as often as can be counted, so it stands as it stood.
    AtEnd,
}

/// Writes the store anew. Nothing is entered.
pub(crate) fn save<W: Hosting, J: Naming, M: Home, R: Wait>(
    rt: &R,
    host: &Host<W, J, M>,
    pass: &mut Pass<WorldBook<W>, J>,
) -> Result<Saved, PlayFault>
    ensures goes_on { PassEnters W.opened J.name.passes [] pass.old pass.new }
    ensures saved { (asked : Bool) → IfOk result (IsSavedAt asked W.opened pass.new.front) }
    ensures named { All (λ e. pass_of e < J.name.passes) pass.new.front }
    ensures fault { IfErr result IsWorkFault }
{
    let Err(shown) = host.checkpoint(rt, pass) else {
        return Ok(Saved::Anew);
    };
    match shown.refused {
        CheckpointRefused::TooLarge { .. } => Ok(Saved::TooLarge),
        CheckpointRefused::EpochEnd { .. } => Ok(Saved::AtEnd),
        CheckpointRefused::Stopped { .. } | CheckpointRefused::DiskFault => {
            Err(PlayFault::DiskFault)
        }
        CheckpointRefused::NoMemory => Err(PlayFault::NoMemory),
    }
}

/// Whether the epochs of the store show that: one more where it was written anew, and else the same.
pub(crate) fn shows(saved: Saved, first: u64, epoch: u64) -> bool
    ensures { IsTrue result → IsShown saved first epoch }
{
    match saved {
        Saved::Unasked => true,
        Saved::Anew => epoch > first && epoch - first == 1,
        Saved::TooLarge => epoch == first,
        Saved::AtEnd => epoch == first && epoch == NUMBERS_END - 1,
    }
}
