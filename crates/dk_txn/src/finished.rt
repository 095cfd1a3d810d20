//! What a run tells when it has ended.
ghost use Rattle.std.specs.Prelude.{◌≡◌};

use dk_types::{ConnNo, Effects, Item, Out, Outcome, Read};

/// A finished run.
#[derive(Debug, Drop)]
pub struct Finished {
    pub(crate) reads: Vec<(Item, Read)>,
    pub(crate) effects: Effects,
    pub(crate) outs: Vec<(ConnNo, Out)>,
    pub(crate) outcome: Outcome,
    pub(crate) touched: Vec<Item>,
}

/// The parts of a finished run, each as `Finished` tells it.
#[derive(Debug, Drop)]
pub struct FinishedParts {
    pub reads: Vec<(Item, Read)>,
    pub effects: Effects,
    pub outs: Vec<(ConnNo, Out)>,
    pub outcome: Outcome,
    pub touched: Vec<Item>,
}

impl Finished {
    /// Takes the run apart, with no copy.
    pub fn into_parts(self) -> FinishedParts
        ensures reads { result.reads ≡ self.reads }
        ensures effects { result.effects ≡ self.effects }
        ensures outs { result.outs ≡ self.outs }
        ensures outcome { result.outcome ≡ self.outcome }
        ensures touched { result.touched ≡ self.touched }
    {
        let Finished {
            reads,
            effects,
            outs,
            outcome,
            touched,
        } = self;
        FinishedParts {
            reads,
            effects,
            outs,
            outcome,
            touched,
        }
    }

    /// What was read, in the order in which the run first asked.
    pub fn reads(&self) -> &[(Item, Read)]
        ensures { result.now ≡ self.now.reads.items }
    {
        self.reads.as_slice()
    }

    /// The net effects.
    pub fn effects(&self) -> &Effects
        ensures { result.now ≡ self.now.effects }
    {
        &self.effects
    }

    /// What was sent, and to whom, in order.
    pub fn outs(&self) -> &[(ConnNo, Out)]
        ensures { result.now ≡ self.now.outs.items }
    {
        self.outs.as_slice()
    }

    /// How the run ended.
    pub fn outcome(&self) -> &Outcome
        ensures { result.now ≡ self.now.outcome }
    {
        &self.outcome
    }

    /// The items that were written, as often as they were.
    pub fn touched(&self) -> &[Item]
        ensures { result.now ≡ self.now.touched.items }
    {
        self.touched.as_slice()
    }
}
