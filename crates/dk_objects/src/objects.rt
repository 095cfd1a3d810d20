//! Managed objects, by id.
ghost use Rattle.std.specs.Prelude.{◌≡◌, ◌+◌, ◌^◌, ◌<◌, ◌≤◌, map as list_map, None, Ok, IfOk, OnOk, OnErr, if◌then◌else◌};
ghost use Rattle.std.specs.FinMap as map;
ghost use Rattle.std.specs.List.Sorted.{IsPermutation};
ghost use Rattle.std.specs.Option.{option_map};
ghost use Rattle.dk_objects.specs.StampedObjects.{restamped};

use dk_hashed::HashedMap;
use dk_types::{NoMemory, Object, ObjectId};
use std::alloc::Global;
use std::marker::Model;

/// The managed objects, each with its stamp: the number of the commit that wrote it last.
#[derive(Drop)]
pub struct Objects {
    objects: HashedMap<ObjectId, (Object, u64)>,
}

impl Model for Objects {
    ghost use Rattle.dk_map.specs.AsMap.{map_of};
    ghost use Rattle.dk_map.specs.Entries.{IsOrdered};
    ghost use Rattle.dk_model.specs.Keys.{id_cmp};
    ghost use Rattle.dk_objects.specs.StampedObjects.{StampedObjects, objects_code};

    ghost Value = { StampedObjects };

    ghost coded = { objects_code };

    ghost view = { λ a. record { objects = map_of id_cmp a.objects.entries; spare = a.objects.spare } };

    ghost invariant = { λ a. IsOrdered id_cmp a.objects.entries };
}

impl Objects {
    /// No objects and no room. It takes no memory.
    pub fn new(alloc: Global) -> Objects
        ensures empty { result.objects ≡ map.empty }
        ensures spare { result.spare ≡ 0 }
    {
        Objects {
            objects: HashedMap::new(alloc),
        }
    }

    /// How many objects there are.
    pub fn len(&self) -> u64
        ensures len { result ≡ map.len self.now.objects }
        ensures small { map.len self.now.objects + self.now.spare < 2 ^ 63 }
    {
        self.objects.len() as u64
    }

    /// How many more objects fit without memory.
    pub fn spare(&self) -> u64
        ensures { result ≡ self.now.spare }
    {
        self.objects.spare() as u64
    }

    /// Makes `spare` at least `more`. Where memory is refused nothing changes.
    pub fn reserve(&mut self, more: u64) -> Result<(), NoMemory>
        ensures objects { self.new.objects ≡ self.old.objects }
        ensures room { OnOk result (more ≤ self.new.spare) }
        ensures kept { self.old.spare ≤ self.new.spare }
        ensures had_room { more ≤ self.old.spare → (self.new ≡ self.old) × (result ≡ Ok tt) }
        ensures refused { OnErr result (self.new ≡ self.old) }
    {
        self.objects.reserve(more as usize)?;
        Ok(())
    }

    /// The object under an id, and its stamp.
    pub fn get(&self, id: ObjectId) -> Option<(&Object, u64)>
        ensures { option_map (λ e. (e.0.now, e.1)) result ≡ map.get self.now.objects id }
    {
        let Some((object, stamp)) = self.objects.get(&id) else {
            return None;
        };
        Some((object, *stamp))
    }

    /// Puts an object under an id. At an id that is there it takes the old one's place; any other takes one of `spare`, and no memory.
    pub fn put(&mut self, id: ObjectId, object: Object, stamp: u64)
        requires room { map.get self.old.objects id ≡ None → 0 < self.old.spare }
        ensures objects { self.new.objects ≡ map.insert self.old.objects id (object, stamp) }
        ensures spare { self.new.spare + (if map.contains_key self.old.objects id then 0 else 1) ≡ self.old.spare }
    {
        self.objects.insert(id, (object, stamp));
    }

    /// Takes out the object under an id, if there is one. What room there was stays, and mostly its own is spare from then on.
    pub fn remove(&mut self, id: ObjectId)
        ensures objects { self.new.objects ≡ map.remove self.old.objects id }
        ensures spare { self.old.spare ≤ self.new.spare }
    {
        self.objects.remove(&id);
    }

    /// Gives the object under an id another stamp, if there is one. It takes no memory, and the object is not copied.
    pub fn restamp(&mut self, id: ObjectId, stamp: u64)
        ensures objects { self.new.objects ≡ restamped stamp id self.old.objects }
        ensures spare { self.new.spare ≡ self.old.spare }
    {
        self.objects.change(&id, |stamped| stamped.1 = stamp);
    }

    /// All objects in the order of their ids. Only the list itself, and what sorts it, take memory.
    pub fn entries(&self, alloc: Global) -> Result<Vec<(&ObjectId, &(Object, u64))>, NoMemory>
        ensures { IfOk result (λ list. list_map (λ e. (e.0.now, e.1.now)) list.items ≡ map.entries self.now.objects) }
    {
        Ok(self.objects.entries(alloc)?)
    }

    /// All objects in no order. Only the list itself takes memory.
    pub fn unordered(&self, alloc: Global) -> Result<Vec<(&ObjectId, &(Object, u64))>, NoMemory>
        ensures { IfOk result (λ list. IsPermutation (list_map (λ e. (e.0.now, e.1.now)) list.items) (map.entries self.now.objects)) }
    {
        Ok(self.objects.unordered(alloc)?)
    }
}
