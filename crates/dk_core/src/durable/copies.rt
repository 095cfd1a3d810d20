//! The durable world as it is copied, before it is put in order.
ghost use Rattle.std.specs.Prelude.{◌≡◌, IfOk};

use dk_types::{Durable, Listed, Name, NoMemory, Object, ObjectId, Pending, RunNo};
use std::marker::Model;

/// A copy of the durable world, whose objects are in no order yet. A contract sees the lists that it is put in order to.
#[derive(Drop)]
pub struct WorldCopy {
    pub(crate) commits: u64,
    pub(crate) last: Option<RunNo>,
    pub(crate) objects: Vec<(ObjectId, Object)>,
    pub(crate) names: Vec<(Name, ObjectId)>,
    pub(crate) tasks: Vec<Pending>,
}

impl Model for WorldCopy {
    ghost use Rattle.std.specs.List.Sorted.{IsPermutation};
    ghost use Rattle.dk_types.specs.declared.durable.Durable.{Durable as Lists};
    ghost use Rattle.dk_hashed.specs.InOrder.{in_order};
    ghost use Rattle.dk_model.specs.Keys.{id_cmp};

    ghost Value = { Lists };

    ghost view = { λ c. record { commits = c.commits; last = c.last; objects = in_order id_cmp c.objects.items; names = c.names.items; tasks = c.tasks.items } };

    ghost invariant = { λ c. IsPermutation c.objects.items (in_order id_cmp c.objects.items) };
}

impl WorldCopy {
    /// The world as lists in order. What sorts the objects takes memory.
    pub fn in_order(self) -> Result<Durable, NoMemory>
        ensures { IfOk result (λ durable. durable ≡ self) }
    {
        let WorldCopy {
            commits,
            last,
            mut objects,
            names,
            tasks,
        } = self;
        objects.sort_by_key(|entry| entry.0)?;
        Ok(Durable {
            commits,
            last,
            objects: Listed::from_vec(objects),
            names: Listed::from_vec(names),
            tasks: Listed::from_vec(tasks),
        })
    }
}
