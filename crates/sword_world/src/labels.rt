//! What objects are called.
ghost use Rattle.std.specs.Prelude.{◌≡◌, ◌++◌, ◌∷◌, [], IfOk};
ghost use Rattle.dk_txn.specs.Does.{Does};
ghost use Rattle.dk_game.specs.Halted.{halt_fault};
ghost use Rattle.sword_world.specs.Labels.{labels};

use crate::things::{Player, Thing};
use dk_game::Halt;
use dk_refs::{Managed, ManagedRef};
use dk_txn::{Txn, View};
use dk_types::{Listed, Name, NoMemory, ObjectId};
use std::alloc::Global;

/// A managed object with a name to show.
pub trait Labelled: Managed {
    ghost use Rattle.std.specs.Prelude.{ℕ, List};

    ghost label: { Self → List ℕ };

    fn into_label(self) -> Name
        ensures { result ≡ label self };
}

impl Labelled for Thing {
    ghost label = { λ t. t.description };

    fn into_label(self) -> Name {
        self.description
    }
}

impl Labelled for Player {
    ghost label = { λ p. p.name };

    fn into_label(self) -> Name {
        self.name
    }
}

fn push_label(labels: &mut Vec<Name>, label: Name) -> Result<(), NoMemory>
    ensures { IfOk result (λ _. labels.new.items ≡ labels.old.items ++ label ∷ []) }
{
    labels.push(label)?;
    Ok(())
}

/// What each of the objects is called, in their order.
pub fn labels_of<T: Labelled, V: View>(
    alloc: Global,
    txn: &mut Txn<'_, V>,
    ids: &[ObjectId],
) -> Result<Listed<Name>, Halt>
    ensures { Does V.sights halt_fault txn.old txn.new (labels T.KIND T.of T.label ids.now) result }
{
    let mut labels = Vec::new(alloc);
    for id in ids {
        let object: ManagedRef<T> = ManagedRef::of(*id);
        let found = object.get(alloc, txn)?;
        push_label(&mut labels, found.into_label())?;
    }
    Ok(Listed::from_vec(labels))
}
