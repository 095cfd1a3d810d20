//! The objects that a run has changed.
ghost use Rattle.std.specs.Prelude.{◌≡◌, ◌≤◌, true, is_some, [], ◌∷◌, ◌++◌, vec_len, IfOk, OnOk, OnErr};
ghost use Rattle.std.specs.FinMap as map;
ghost use Rattle.std.specs.Map.{keys_of};
ghost use Rattle.std.specs.Option.{option_copied};
ghost use Rattle.dk_types.specs.Keys.{id_cmp};
ghost use Rattle.dk_types.specs.Values.{same_object};
ghost use Rattle.dk_map.specs.AsMap.{map_of};
ghost use Rattle.dk_map.specs.Entries.{IsOrdered};
ghost use Rattle.dk_overlay.specs.Changes.{put_back, put_each};
ghost use Rattle.dk_overlay.specs.Picks.{picked, newly_set, taken_away};

use crate::change::Change;
use crate::small_map::SmallMap;
use dk_types::{NoMemory, Object, ObjectId};
use std::alloc::Global;
use std::marker::Model;

/// A change at each object that the run has touched.
pub struct ObjectChanges {
    changes: SmallMap<ObjectId, Change<Object>>,
}

impl Drop for ObjectChanges {
    fn drop(self) {
        let ObjectChanges { changes: _ } = self;
    }
}

impl Model for ObjectChanges {
    ghost use Rattle.std.specs.FinMap as map;
    ghost use Rattle.dk_types.specs.declared.object.Object.{Object};
    ghost use Rattle.dk_types.specs.Keys.{id_cmp};
    ghost use Rattle.dk_map.specs.AsMap.{map_of};
    ghost use Rattle.dk_map.specs.Entries.{IsOrdered};
    ghost use Rattle.dk_overlay.specs.declared.change.Change.{Change};
    ghost use Rattle.dk_overlay.specs.Codes.{id_code, object_code, change_code};

    ghost Value = { map.FinMap id_cmp (Change Object) };

    ghost coded = { map.code id_code (change_code object_code) };

    ghost view = { λ a. map_of id_cmp a.changes.entries };

    ghost invariant = { λ a. IsOrdered id_cmp a.changes.entries };
}

/// What the changes of objects come to, each list in the order of the ids.
#[derive(Drop)]
pub struct ObjectEffects {
    /// The objects that are other than before.
    pub written: Vec<(ObjectId, Object)>,
    /// Those that were there and no longer are.
    pub removed: Vec<ObjectId>,
}

impl ObjectEffects {
    /// Puts last what one more change comes to.
    fn add(&mut self, id: ObjectId, change: Change<Object>) -> Result<(), NoMemory>
        ensures written { OnOk result (self.new.written.items ≡ self.old.written.items ++ picked (newly_set same_object) ((id, change) ∷ [])) }
        ensures removed { OnOk result (self.new.removed.items ≡ self.old.removed.items ++ keys_of (picked taken_away ((id, change) ∷ []))) }
    {
        match (change.before, change.after) {
            (None, None) => {}
            (Some(_), None) => self.removed.push(id)?,
            (None, Some(object)) => self.written.push((id, object))?,
            (Some(before), Some(object)) => {
                if before != object {
                    self.written.push((id, object))?;
                }
            }
        }
        Ok(())
    }
}

/// Puts each of these changes at its object, one after another. There is room for them.
fn put_all(changes: &mut SmallMap<ObjectId, Change<Object>>, more: Vec<(ObjectId, Change<Object>)>)
    requires room { vec_len more ≤ changes.old.spare }
    requires ordered { IsOrdered id_cmp changes.old.entries }
    ensures ordered { IsOrdered id_cmp changes.new.entries }
    ensures put { map_of id_cmp changes.new.entries ≡ put_each more.items (map_of id_cmp changes.old.entries) }
{
    for (id, change) in more {
        changes.insert(id, change);
    }
}

impl ObjectChanges {
    /// No changes. Takes no memory.
    pub fn new(alloc: Global) -> ObjectChanges
        ensures { result ≡ map.empty }
    {
        ObjectChanges {
            changes: SmallMap::new(alloc),
        }
    }

    /// The change of an object, if there is one.
    pub fn get(&self, id: ObjectId) -> Option<&Change<Object>>
        ensures { option_copied result ≡ map.get self.now id }
    {
        self.changes.get(&id)
    }

    /// Puts a change at an object. Refused, it changes nothing.
    pub fn set(&mut self, id: ObjectId, change: Change<Object>) -> Result<(), NoMemory>
        ensures ok { OnOk result (self.new ≡ map.insert self.old id change) }
        ensures err { OnErr result (self.new ≡ self.old) }
    {
        self.changes.reserve_for(&id)?;
        self.changes.insert(id, change);
        Ok(())
    }

    /// Puts each of these changes at its object, one after another, or none of them.
    pub fn set_all(&mut self, more: Vec<(ObjectId, Change<Object>)>) -> Result<(), NoMemory>
        ensures ok { OnOk result (self.new ≡ put_each more.items self.old) }
        ensures err { OnErr result (self.new ≡ self.old) }
    {
        self.changes.reserve(more.len())?;
        put_all(&mut self.changes, more);
        Ok(())
    }

    /// Puts a change at an object, and gives the one that stood there. Refused, it changes nothing.
    pub fn replace(
        &mut self,
        id: ObjectId,
        change: Change<Object>,
    ) -> Result<Option<Change<Object>>, NoMemory>
        ensures ok { IfOk result (λ stood. (stood ≡ map.get self.old id) × (self.new ≡ map.insert self.old id change)) }
        ensures err { OnErr result (self.new ≡ self.old) }
    {
        self.changes.reserve_for(&id)?;
        Ok(self.changes.insert(id, change))
    }

    /// Puts back what stood at an object before its last change. It takes no memory.
    pub fn put_back(&mut self, id: ObjectId, stood: Option<Change<Object>>)
        requires { is_some (map.get self.old id) ≡ true }
        ensures { self.new ≡ put_back self.old id stood }
    {
        match stood {
            None => {
                self.changes.remove(&id);
            }
            Some(change) => {
                self.changes.insert(id, change);
            }
        }
    }

    /// What the changes come to, in the order of the ids. The objects are moved, not copied; without a change it takes
    /// no memory.
    pub fn into_effects(self, alloc: Global) -> Result<ObjectEffects, NoMemory>
        ensures written { IfOk result (λ effects. effects.written.items ≡ picked (newly_set same_object) (map.entries self)) }
        ensures removed { IfOk result (λ effects. effects.removed.items ≡ keys_of (picked taken_away (map.entries self))) }
    {
        let ObjectChanges { changes } = self;
        let mut effects = ObjectEffects {
            written: Vec::new(alloc),
            removed: Vec::new(alloc),
        };
        for (id, change) in changes.into_entries()? {
            effects.add(id, change)?;
        }
        Ok(effects)
    }
}
