//! A game that in every job sends a message to connection 1.

use dk_game::{Game, Halt};
use dk_model::Rules;
use dk_txn::{Txn, View};
use dk_types::{Blob, ConnNo, GameId, Job, Out};
use std::alloc::Global;

#[derive(Drop)]
pub(crate) struct Herald;

impl Rules for Herald {
    ghost use Rattle.std.specs.Prelude.{codes};
    ghost use Rattle.dk_types.specs.declared.job.Out.TheVariants as out;
    ghost use Rattle.dk_model.specs.Runs.{send};
    ghost use Rattle.dk_model.proofs.Acts.{lawful_rules};
    ghost use Rattle.dk_model.proofs.Operations.{lawful_send};

    ghost rules = { λ _ _. send (record { 0 = 1 }) (out.Message (codes "hear")) };

    ghost lawful = { λ _. lawful_rules (λ _. lawful_send (record { 0 = 1 }) (out.Message (codes "hear"))) };
}

impl Game for Herald {
    ghost use Rattle.std.specs.Prelude.{codes};

    ghost id = { λ _. codes "herald" };

    fn id(&self) -> GameId {
        GameId::new(b"herald").unwrap()
    }

    fn run<V: View>(&self, alloc: Global, _job: &Job, txn: &mut Txn<'_, V>) -> Result<(), Halt> {
        let body = Blob::copy_of(alloc, b"hear")?;
        txn.send(ConnNo(1), Out::Message(body))?;
        Ok(())
    }
}
