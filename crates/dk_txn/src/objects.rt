//! The calls on objects.
ghost use Rattle.std.specs.Prelude.{◌≡◌, ℕ, List, OnErr, IfOk, IfErr};
ghost use Rattle.std.specs.Option.{option_map};
ghost use Rattle.dk_types.specs.declared.item.Item.TheVariants as ask;
ghost use Rattle.dk_model.specs.Runs as act;
ghost use Rattle.dk_txn.specs.Refusals.{refusal_fault, TellsLength};

use crate::checks::{is_reserved_kind, is_too_long, too_long};
use crate::refusal::Refusal;
use crate::txn::Txn;
use crate::view::View;
use dk_model::limits::OBJECTS_MOST_COUNT;
use dk_overlay::{Change, copy_change, copy_value, object_of_answer};
use dk_types::{Blob, Item, NoMemory, Object, ObjectId};

/// The kind of what may be an object.
fn kind_of(value: &Option<Object>) -> Option<u16>
    ensures { result ≡ option_map (λ object. object.kind) value.now }
{
    match value {
        None => None,
        Some(object) => Some(object.kind),
    }
}

impl<'a, V: View> Txn<'a, V> {
    ghost use Rattle.dk_txn.specs.Asks.{Asks, AsksNothing};
    ghost use Rattle.dk_txn.specs.Does.{Keeps, Does, SameChanges, IsNow, KnownObject, KnownKind, CanChange, MayTouch, RefusesChange};

    /// An object as it is now.
    fn object_now(&mut self, id: ObjectId) -> Result<Option<Object>, NoMemory>
        ensures keeps { Keeps V.sights self.old self.new }
        ensures asks { Asks (ask.Object id) V.sights self.old self.new }
        ensures same_changes { SameChanges self.old.set self.new.set }
        ensures now { IfOk result (IsNow self.new.set id) }
    {
        match self.set.object(id) {
            Some(change) => copy_value(&change.after),
            None => Ok(object_of_answer(self.ask(Item::Object(id))?)),
        }
    }

    /// What an object was before the run, and its kind now. What it is now is not copied.
    fn known_kind(&mut self, id: ObjectId) -> Result<(Option<Object>, Option<u16>), NoMemory>
        ensures keeps { Keeps V.sights self.old self.new }
        ensures asks { Asks (ask.Object id) V.sights self.old self.new }
        ensures same_changes { SameChanges self.old.set self.new.set }
        ensures known { IfOk result (λ known. KnownKind self.new.set id known.0 known.1) }
    {
        match self.set.object(id) {
            Some(change) => {
                let kind = kind_of(&change.after);
                Ok((copy_value(&change.before)?, kind))
            }
            None => {
                let before = object_of_answer(self.ask(Item::Object(id))?);
                let kind = kind_of(&before);
                Ok((before, kind))
            }
        }
    }

    /// The same of an object that stands and that may be touched.
    fn touchable(&mut self, id: ObjectId) -> Result<(Option<Object>, u16), Refusal>
        ensures keeps { Keeps V.sights self.old self.new }
        ensures asks { Asks (ask.Object id) V.sights self.old self.new }
        ensures same_changes { SameChanges self.old.set self.new.set }
        ensures ok { IfOk result (λ known. MayTouch self.new.set id known.0 known.1) }
        ensures err { IfErr result (RefusesChange self.new.set id) }
        ensures length { (bytes : List ℕ) → IfErr result (TellsLength bytes) }
    {
        let (before, kind) = self.known_kind(id)?;
        let kind = match kind {
            None => return Err(Refusal::ObjectNotFound),
            Some(kind) => kind,
        };
        if is_reserved_kind(self.set.mode(), kind) {
            return Err(Refusal::Reserved);
        }
        Ok((before, kind))
    }

    /// What an object was before the run, and what it is now.
    fn known_object(&mut self, id: ObjectId) -> Result<Change<Object>, NoMemory>
        ensures keeps { Keeps V.sights self.old self.new }
        ensures asks { Asks (ask.Object id) V.sights self.old self.new }
        ensures same_changes { SameChanges self.old.set self.new.set }
        ensures known { IfOk result (KnownObject self.new.set id) }
    {
        match self.set.object(id) {
            Some(change) => copy_change(change),
            None => {
                let after = object_of_answer(self.ask(Item::Object(id))?);
                let before = copy_value(&after)?;
                Ok(Change { before, after })
            }
        }
    }

    /// The same of an object that stands and that may be touched.
    pub(crate) fn changeable(&mut self, id: ObjectId) -> Result<Change<Object>, Refusal>
        ensures keeps { Keeps V.sights self.old self.new }
        ensures asks { Asks (ask.Object id) V.sights self.old self.new }
        ensures same_changes { SameChanges self.old.set self.new.set }
        ensures ok { IfOk result (CanChange self.new.set id) }
        ensures err { IfErr result (RefusesChange self.new.set id) }
        ensures length { (bytes : List ℕ) → IfErr result (TellsLength bytes) }
    {
        let known = self.known_object(id)?;
        let kind = match &known.after {
            None => return Err(Refusal::ObjectNotFound),
            Some(object) => object.kind,
        };
        if is_reserved_kind(self.set.mode(), kind) {
            return Err(Refusal::Reserved);
        }
        Ok(known)
    }

    /// Bytes as an object or a task keeps them: who reads it takes no memory for them.
    pub(crate) fn kept(&self, bytes: Blob) -> Result<Blob, NoMemory>
        ensures { IfOk result (λ kept. kept ≡ bytes) }
    {
        bytes.shared(self.set.allocator())
    }

    /// The object (`DataManager.getBinding` and `ManagedReference.get` read by it). Refuses 2.
    pub fn get(&mut self, id: ObjectId) -> Result<Object, Refusal>
        ensures does { Does V.sights refusal_fault self.old self.new (act.get id) result }
        ensures asks { Asks (ask.Object id) V.sights self.old self.new }
        ensures same_changes { SameChanges self.old.set self.new.set }
        ensures length { (bytes : List ℕ) → IfErr result (TellsLength bytes) }
    {
        let object = self.object_now(id)?;
        object.ok_or(Refusal::ObjectNotFound)
    }

    /// A new object (`DataManager.createReference`), whose id is the run's number and its place among the objects that the
    /// run made. Refuses 6, 4, 8.
    pub fn create(&mut self, kind: u16, bytes: Blob) -> Result<ObjectId, Refusal>
        ensures does { Does V.sights refusal_fault self.old self.new (act.create kind bytes) result }
        ensures asks { AsksNothing self.old self.new }
        ensures refused { OnErr result (SameChanges self.old.set self.new.set) }
        ensures length { IfErr result (TellsLength bytes) }
    {
        if is_reserved_kind(self.set.mode(), kind) {
            return Err(Refusal::Reserved);
        }
        if is_too_long(&bytes) {
            return Err(too_long(&bytes));
        }
        if self.set.objects_made() as u64 >= OBJECTS_MOST_COUNT {
            return Err(Refusal::TooMany);
        }
        let shared = self.kept(bytes)?;
        Ok(
            self.set.create_object(Object {
                kind,
                bytes: shared,
            })?,
        )
    }

    /// Gives an object these bytes, under its old kind. Refuses 4, 2, 6.
    pub fn save(&mut self, id: ObjectId, bytes: Blob) -> Result<(), Refusal>
        ensures does { Does V.sights refusal_fault self.old self.new (act.save id bytes) result }
        ensures asks { Asks (ask.Object id) V.sights self.old self.new }
        ensures refused { OnErr result (SameChanges self.old.set self.new.set) }
        ensures length { IfErr result (TellsLength bytes) }
    {
        if is_too_long(&bytes) {
            return Err(too_long(&bytes));
        }
        let (before, kind) = self.touchable(id)?;
        let shared = self.kept(bytes)?;
        let change = Change {
            before,
            after: Some(Object {
                kind,
                bytes: shared,
            }),
        };
        self.set.change_object(id, change)?;
        Ok(())
    }

    /// Writes an object as it is, so that it gets a new stamp (`DataManager.markForUpdate`). Refuses 2, 6.
    pub fn mark(&mut self, id: ObjectId) -> Result<(), Refusal>
        ensures does { Does V.sights refusal_fault self.old self.new (act.mark id) result }
        ensures asks { Asks (ask.Object id) V.sights self.old self.new }
        ensures refused { OnErr result (SameChanges self.old.set self.new.set) }
    {
        let known = self.changeable(id)?;
        self.set.change_object(id, known)?;
        Ok(())
    }

    /// Takes an object away (`DataManager.removeObject`). Refuses 2, 6.
    pub fn remove(&mut self, id: ObjectId) -> Result<(), Refusal>
        ensures does { Does V.sights refusal_fault self.old self.new (act.remove id) result }
        ensures asks { Asks (ask.Object id) V.sights self.old self.new }
        ensures refused { OnErr result (SameChanges self.old.set self.new.set) }
    {
        let (before, _) = self.touchable(id)?;
        let change = Change {
            before,
            after: None,
        };
        self.set.change_object(id, change)?;
        Ok(())
    }
}
