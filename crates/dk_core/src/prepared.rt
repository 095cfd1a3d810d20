//! What a commit needs.
ghost use Rattle.std.specs.Prelude.{◌≡◌};
ghost use Rattle.dk_core.specs.Rooms.{places_of as effects_places};

use crate::rooms::places_of;
use dk_connections::Deliveries;
use dk_types::{Effects, RunNo};
use std::marker::Model;
use std::snapshot::Snapshot;

/// All that the commit of a finished run needs: what its entry in the journal is, and its messages with the room of their
/// delivery. The effects are the run's: contracts alone see them here.
#[derive(Drop)]
pub struct Prepared {
    seq: u64,
    run: RunNo,
    places: u64,
    effects: Snapshot<Effects>,
    pub(crate) deliveries: Deliveries,
}

impl Model for Prepared {
    ghost use Rattle.std.specs.Prelude.{◌≡◌};
    ghost use Rattle.dk_core.specs.Preparations.{Preparation};
    ghost use Rattle.dk_core.specs.Rooms.{places_of};

    ghost Value = { Preparation };

    ghost view = { λ p. record { entry = record { seq = p.seq; run = p.run; effects = p.effects.value }; deliveries = p.deliveries } };

    ghost invariant = { λ p. p.places ≡ places_of p.effects.value };
}

impl Prepared {
    /// The commit of this number and this run, with the run's effects and messages.
    pub(crate) fn new(seq: u64, run: RunNo, effects: &Effects, deliveries: Deliveries) -> Prepared
        ensures { result ≡ record { entry = record { seq = seq; run = run; effects = effects.now }; deliveries = deliveries } }
    {
        Prepared {
            seq,
            run,
            places: places_of(effects),
            effects: Snapshot::of(effects),
            deliveries,
        }
    }

    /// The commit's number.
    pub fn seq(&self) -> u64
        ensures { result ≡ self.now.entry.seq }
    {
        self.seq
    }

    /// The run that is committed.
    pub fn run(&self) -> RunNo
        ensures { result ≡ self.now.entry.run }
    {
        self.run
    }

    /// How many more objects, names and tasks have to fit into the world without memory when it is published.
    pub fn places(&self) -> u64
        ensures { result ≡ effects_places self.now.entry.effects }
    {
        self.places
    }
}
