//! References to objects of one type.
ghost use Rattle.std.specs.Prelude.{◌≡◌, OnErr, IfErr};
ghost use Rattle.dk_types.specs.declared.item.Item.TheVariants as ask;
ghost use Rattle.dk_model.specs.Runs as act;
ghost use Rattle.dk_model.specs.References.{get_as, get_for_update_as, save_as};
ghost use Rattle.dk_txn.specs.Asks.{Asks, AsksNothing};
ghost use Rattle.dk_txn.specs.Does.{Does, SameChanges};
ghost use Rattle.dk_txn.specs.Refusals.{refusal_fault, TellsLength};
ghost use Rattle.dk_refs.specs.Telling.{TellsKind};

use crate::managed::Managed;
use dk_txn::{Refusal, Txn, View};
use dk_types::ObjectId;
use std::alloc::{AllocError, Global};
use std::marker::{Model, PhantomData};

/// A typed reference (`ManagedReference`), seen by contracts as its id. It says nothing of the object: there may be
/// none, or one of another kind.
pub struct ManagedRef<T> {
    id: ObjectId,
    of: PhantomData<T>,
}

impl<T> Model for ManagedRef<T> {
    ghost use Rattle.dk_types.specs.declared.number.ObjectId.{ObjectId};

    ghost Value = { ObjectId };

    ghost view = { λ r. r.id };

    ghost inverse = { λ id. record { id = id; of = record {} } };
}

impl<T> Clone for ManagedRef<T> {
    ghost is_clone = { λ old new. new ≡ old };

    fn clone(&self) -> Result<ManagedRef<T>, AllocError> {
        Ok(ManagedRef::of(self.id))
    }
}

impl<T> Copy for ManagedRef<T> {}

impl<T> ManagedRef<T> {
    /// The reference to the object of this id, whatever it is.
    pub fn of(id: ObjectId) -> ManagedRef<T>
        ensures { result ≡ id }
    {
        ManagedRef {
            id,
            of: PhantomData,
        }
    }

    /// The id of the object (`ManagedReference.getId`).
    pub fn id(&self) -> ObjectId
        ensures { result ≡ self.now }
    {
        self.id
    }
}

impl<T: Managed> ManagedRef<T> {
    /// A new object of this value (`DataManager.createReference`). Refuses 6, 4, 8.
    pub fn create<V: View>(
        alloc: Global,
        txn: &mut Txn<'_, V>,
        value: &T,
    ) -> Result<ManagedRef<T>, Refusal>
        ensures does { Does V.sights refusal_fault txn.old txn.new (act.create T.KIND (T.bytes value.now)) result }
        ensures asks { AsksNothing txn.old txn.new }
        ensures refused { OnErr result (SameChanges txn.old.set txn.new.set) }
        ensures length { IfErr result (TellsLength (T.bytes value.now)) }
    {
        let payload = value.encode(alloc)?;
        let id = txn.create(T::KIND, payload)?;
        Ok(ManagedRef::of(id))
    }

    /// The object's value (`ManagedReference.get`). Refuses 2, 3, 10.
    pub fn get<V: View>(&self, alloc: Global, txn: &mut Txn<'_, V>) -> Result<T, Refusal>
        ensures does { Does V.sights refusal_fault txn.old txn.new (get_as T.KIND T.of self.now) result }
        ensures asks { Asks (ask.Object self.now) V.sights txn.old txn.new }
        ensures same_changes { SameChanges txn.old.set txn.new.set }
        ensures kind { IfErr result (TellsKind txn.new.set self.now) }
    {
        let object = txn.get(self.id)?;
        if object.kind != T::KIND {
            return Err(Refusal::WrongKind { found: object.kind });
        }
        T::decode(alloc, &object.bytes)?.ok_or(Refusal::BadBytes)
    }

    /// The object's value, which the run is to change: the object is written as it is, so that it gets a new stamp
    /// (`ManagedReference.getForUpdate`). Refuses 2, 3, 10, 6.
    pub fn get_for_update<V: View>(&self, alloc: Global, txn: &mut Txn<'_, V>) -> Result<T, Refusal>
        ensures does { Does V.sights refusal_fault txn.old txn.new (get_for_update_as T.KIND T.of self.now) result }
        ensures asks { Asks (ask.Object self.now) V.sights txn.old txn.new }
        ensures refused { OnErr result (SameChanges txn.old.set txn.new.set) }
        ensures kind { IfErr result (TellsKind txn.new.set self.now) }
    {
        let value = self.get(alloc, txn)?;
        txn.mark(self.id)?;
        Ok(value)
    }

    /// Writes the object as it is, so that it gets a new stamp (`DataManager.markForUpdate`). Its kind is not looked
    /// at. Refuses 2, 6.
    pub fn mark_for_update<V: View>(&self, txn: &mut Txn<'_, V>) -> Result<(), Refusal>
        ensures does { Does V.sights refusal_fault txn.old txn.new (act.mark self.now) result }
        ensures asks { Asks (ask.Object self.now) V.sights txn.old txn.new }
        ensures refused { OnErr result (SameChanges txn.old.set txn.new.set) }
    {
        txn.mark(self.id)
    }

    /// Gives the object this value. Refuses 2, 3, 4, 6.
    pub fn save<V: View>(
        &self,
        alloc: Global,
        txn: &mut Txn<'_, V>,
        value: &T,
    ) -> Result<(), Refusal>
        ensures does { Does V.sights refusal_fault txn.old txn.new (save_as T.KIND self.now (T.bytes value.now)) result }
        ensures asks { Asks (ask.Object self.now) V.sights txn.old txn.new }
        ensures refused { OnErr result (SameChanges txn.old.set txn.new.set) }
        ensures kind { IfErr result (TellsKind txn.new.set self.now) }
        ensures length { IfErr result (TellsLength (T.bytes value.now)) }
    {
        let before = txn.get(self.id)?;
        if before.kind != T::KIND {
            return Err(Refusal::WrongKind { found: before.kind });
        }
        let payload = value.encode(alloc)?;
        txn.save(self.id, payload)
    }

    /// Takes the object away (`DataManager.removeObject`). Its kind is not looked at. Refuses 2, 6.
    pub fn remove<V: View>(&self, txn: &mut Txn<'_, V>) -> Result<(), Refusal>
        ensures does { Does V.sights refusal_fault txn.old txn.new (act.remove self.now) result }
        ensures asks { Asks (ask.Object self.now) V.sights txn.old txn.new }
        ensures refused { OnErr result (SameChanges txn.old.set txn.new.set) }
    {
        txn.remove(self.id)
    }
}
