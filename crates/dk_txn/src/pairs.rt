//! Changes of the platform's records as one: all are made, or none.
ghost use Rattle.std.specs.Prelude.{◌≡◌, ◌++◌, ◌∷◌, [], false, OnOk, OnErr, IfOk, IfErr};
ghost use Rattle.std.specs.List.{AllByRecursion};
ghost use Rattle.dk_types.specs.declared.item.Item.TheVariants as ask;
ghost use Rattle.dk_types.specs.declared.mode.Mode.TheVariants as mode;
ghost use Rattle.dk_model.specs.Runs as act;
ghost use Rattle.dk_model.specs.Platforms as platform;
ghost use Rattle.dk_txn.specs.Pairs.{with_bytes};
ghost use Rattle.dk_txn.specs.Refusals.{refusal_fault, TellsLength};

use crate::checks::{is_too_long, too_long};
use crate::refusal::Refusal;
use crate::txn::Txn;
use crate::view::View;
use dk_model::limits::OBJECTS_MOST_COUNT;
use dk_overlay::Change;
use dk_types::{Blob, Name, NoMemory, Object, ObjectId};

/// A change that leaves the object with other bytes.
fn rewritten(known: Change<Object>, bytes: Blob) -> Change<Object>
    ensures { result ≡ with_bytes known bytes }
{
    let kind = match &known.after {
        None => {
            return Change {
                before: known.before,
                after: None,
            };
        }
        Some(object) => object.kind,
    };
    Change {
        before: known.before,
        after: Some(Object { kind, bytes }),
    }
}

/// Puts a change last.
fn put_last(
    changes: &mut Vec<(ObjectId, Change<Object>)>,
    change: (ObjectId, Change<Object>),
) -> Result<(), NoMemory>
    ensures { OnOk result (changes.new.items ≡ changes.old.items ++ change ∷ []) }
{
    changes.push(change)?;
    Ok(())
}

impl<'a, V: View> Txn<'a, V> {
    ghost use Rattle.dk_txn.specs.Asks.{Asks, AsksOf, EitherOf};
    ghost use Rattle.dk_txn.specs.Does.{Keeps, Does, SameChanges, Stands};
    ghost use Rattle.dk_txn.specs.Rewritten.{IsObjectOf, AreRewritten, NeverTold};

    /// A new object, and the name bound to it. Refuses 4, 8.
    pub fn create_bound(&mut self, name: &Name, kind: u16, bytes: Blob) -> Result<(), Refusal>
        requires { self.old.set.mode ≡ mode.Platform }
        ensures does { Does V.sights refusal_fault self.old self.new (act.and_then (act.create kind bytes) (λ id. act.bind name.now id)) result }
        ensures asks { Asks (ask.Bound name.now) V.sights self.old self.new }
        ensures refused { OnErr result (SameChanges self.old.set self.new.set) }
        ensures length { IfErr result (TellsLength bytes) }
    {
        if is_too_long(&bytes) {
            return Err(too_long(&bytes));
        }
        if self.set.objects_made() as u64 >= OBJECTS_MOST_COUNT {
            return Err(Refusal::TooMany);
        }
        let known = self.known_name(name)?;
        self.set
            .create_named(Object { kind, bytes }, name, known.before)?;
        Ok(())
    }

    /// Takes the name's binding away, and an object that stands. Refuses 1.
    pub fn unbind_and_remove(&mut self, name: &Name, id: ObjectId) -> Result<(), Refusal>
        requires platform { self.old.set.mode ≡ mode.Platform }
        requires stands { Stands self.old.set id }
        ensures does { Does V.sights refusal_fault self.old self.new (act.and_then (act.unbind name.now) (λ _. act.remove id)) result }
        ensures asks { AsksOf (EitherOf (ask.Bound name.now) (ask.Object id)) V.sights self.old self.new }
        ensures refused { OnErr result (SameChanges self.old.set self.new.set) }
    {
        let known = self.known_name(name)?;
        if known.after.is_none() {
            return Err(Refusal::NameNotBound);
        }
        let object = self.changeable(id)?;
        let unbound = Change {
            before: known.before,
            after: None,
        };
        let removed = Change {
            before: object.before,
            after: None,
        };
        self.set.change_named(name, unbound, id, removed)?;
        Ok(())
    }

    /// Gives both objects, which stand, these bytes. Refuses 7 alone.
    pub fn save_both(
        &mut self,
        first: ObjectId,
        payload: Blob,
        second: ObjectId,
        behind: Blob,
    ) -> Result<(), Refusal>
        requires platform { self.old.set.mode ≡ mode.Platform }
        requires short { (act.is_too_long payload ≡ false) × (act.is_too_long behind ≡ false) }
        requires stand { Stands self.old.set first × Stands self.old.set second }
        ensures does { Does V.sights refusal_fault self.old self.new (act.and_then (act.save first payload) (λ _. act.save second behind)) result }
        ensures asks { AsksOf (EitherOf (ask.Object first) (ask.Object second)) V.sights self.old self.new }
        ensures refused { OnErr result (SameChanges self.old.set self.new.set) }
    {
        let known = self.changeable(first)?;
        let next = self.changeable(second)?;
        let change = rewritten(known, payload);
        self.set
            .change_two(first, change, second, rewritten(next, behind))?;
        Ok(())
    }

    /// The changes that leave these objects, which stand, with these bytes.
    fn rewritten_all(
        &mut self,
        payloads: Vec<(ObjectId, Blob)>,
    ) -> Result<Vec<(ObjectId, Change<Object>)>, Refusal>
        requires platform { self.old.set.mode ≡ mode.Platform }
        requires stand { AllByRecursion (λ p. Stands self.old.set p.0) payloads.items }
        ensures keeps { Keeps V.sights self.old self.new }
        ensures asks { AsksOf (IsObjectOf payloads.items) V.sights self.old self.new }
        ensures same_changes { SameChanges self.old.set self.new.set }
        ensures ok { IfOk result (λ changes. AreRewritten self.old.set self.new.set payloads.items changes.items) }
        ensures err { IfErr result (NeverTold self.new.set) }
    {
        let mut changes = Vec::new(self.set.allocator());
        for (id, bytes) in payloads {
            let known = self.changeable(id)?;
            put_last(&mut changes, (id, rewritten(known, bytes)))?;
        }
        Ok(changes)
    }

    /// Gives each of these objects, which stand, its bytes, one after another, or none of them. Refuses 7 alone.
    pub fn save_all(&mut self, payloads: Vec<(ObjectId, Blob)>) -> Result<(), Refusal>
        requires platform { self.old.set.mode ≡ mode.Platform }
        requires short { AllByRecursion (λ p. act.is_too_long p.1 ≡ false) payloads.items }
        requires stand { AllByRecursion (λ p. Stands self.old.set p.0) payloads.items }
        ensures does { Does V.sights refusal_fault self.old self.new (platform.save_each payloads.items) result }
        ensures asks { AsksOf (IsObjectOf payloads.items) V.sights self.old self.new }
        ensures refused { OnErr result (SameChanges self.old.set self.new.set) }
    {
        let changes = self.rewritten_all(payloads)?;
        self.set.change_all(changes)?;
        Ok(())
    }
}
