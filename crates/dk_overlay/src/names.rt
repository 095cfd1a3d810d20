//! The names that a run has bound and unbound.
ghost use Rattle.std.specs.Prelude.{◌≡◌, ◌<◌, None, [], ◌∷◌, ◌++◌, IfOk, OnOk, OnErr};
ghost use Rattle.std.specs.FinMap as map;
ghost use Rattle.std.specs.Map.{keys_of};
ghost use Rattle.std.specs.Option.{option_copied};
ghost use Rattle.dk_types.specs.Names.{bytes_cmp};
ghost use Rattle.dk_types.specs.Values.{same_id};
ghost use Rattle.dk_overlay.specs.Least.{Least};
ghost use Rattle.dk_overlay.specs.Binding.{is_bound_after, IsNoted};
ghost use Rattle.dk_map.specs.Entries.{find, IsOrdered};
ghost use Rattle.dk_overlay.specs.Picks.{picked, newly_set, taken_away};

use crate::change::Change;
use dk_map::OrderedMap;
use dk_types::{Name, NoMemory, ObjectId};
use std::alloc::Global;
use std::marker::Model;

/// A change at each name that the run has bound or unbound.
pub struct NameChanges {
    changes: OrderedMap<Name, Change<ObjectId>>,
    /// The names that the run has bound and that are bound still.
    bound: OrderedMap<Name, ()>,
}

impl Drop for NameChanges {
    fn drop(self) {
        let NameChanges {
            changes: _,
            bound: _,
        } = self;
    }
}

impl Model for NameChanges {
    ghost use Rattle.std.specs.Prelude.{ℕ};
    ghost use Rattle.std.specs.FinMap as map;
    ghost use Rattle.std.specs.Coded.{coded_list, coded_ℕ};
    ghost use Rattle.dk_types.specs.declared.number.ObjectId.{ObjectId};
    ghost use Rattle.dk_types.specs.Names.{bytes_cmp};
    ghost use Rattle.dk_map.specs.AsMap.{map_of};
    ghost use Rattle.dk_map.specs.Entries.{IsOrdered};
    ghost use Rattle.dk_overlay.specs.declared.change.Change.{Change};
    ghost use Rattle.dk_overlay.specs.Codes.{id_code, change_code};
    ghost use Rattle.dk_overlay.specs.Binding.{HasBound};

    ghost Value = { map.FinMap bytes_cmp (Change ObjectId) };

    ghost coded = { map.code (coded_list coded_ℕ) (change_code id_code) };

    ghost view = { λ a. map_of bytes_cmp a.changes.entries };

    ghost invariant = { λ a. IsOrdered bytes_cmp a.changes.entries × IsOrdered bytes_cmp a.bound.entries × HasBound a.bound.entries a.changes.entries };
}

/// A change of a name as another value.
fn copy_change(change: &Change<ObjectId>) -> Change<ObjectId>
    ensures { result ≡ change.now }
{
    Change {
        before: change.before,
        after: change.after,
    }
}

/// What the changes of names come to, each list in the order of the names.
#[derive(Drop)]
pub struct NameEffects {
    /// The names that are bound to another object than before.
    pub bound: Vec<(Name, ObjectId)>,
    /// Those that were bound and no longer are.
    pub unbound: Vec<Name>,
}

impl NameEffects {
    /// Puts last what one more change comes to.
    fn add(&mut self, name: Name, change: Change<ObjectId>) -> Result<(), NoMemory>
        ensures bound { OnOk result (self.new.bound.items ≡ self.old.bound.items ++ picked (newly_set same_id) ((name, change) ∷ [])) }
        ensures unbound { OnOk result (self.new.unbound.items ≡ self.old.unbound.items ++ keys_of (picked taken_away ((name, change) ∷ []))) }
    {
        match (change.before, change.after) {
            (None, None) => {}
            (Some(_), None) => self.unbound.push(name)?,
            (None, Some(id)) => self.bound.push((name, id))?,
            (Some(before), Some(id)) => {
                if before != id {
                    self.bound.push((name, id))?;
                }
            }
        }
        Ok(())
    }
}

/// Lists a name as bound, or takes it off the list.
fn note_bound(bound: &mut OrderedMap<Name, ()>, name: Name, is_bound: bool)
    requires ordered { IsOrdered bytes_cmp bound.old.entries }
    requires room { find bytes_cmp name bound.old.entries ≡ None → 0 < bound.old.spare }
    ensures ordered { IsOrdered bytes_cmp bound.new.entries }
    ensures found { IsNoted name is_bound bound.old.entries bound.new.entries }
{
    if is_bound {
        bound.insert(name, ());
    } else {
        bound.remove(&name);
    }
}

impl NameChanges {
    /// No changes. Takes no memory.
    pub fn new(alloc: Global) -> NameChanges
        ensures { result ≡ map.empty }
    {
        NameChanges {
            changes: OrderedMap::new(alloc),
            bound: OrderedMap::new(alloc),
        }
    }

    /// The change of a name, if there is one.
    pub fn get(&self, name: &Name) -> Option<Change<ObjectId>>
        ensures { result ≡ map.get self.now name.now }
    {
        match self.changes.get(name) {
            None => None,
            Some(change) => Some(copy_change(change)),
        }
    }

    /// The least name above the given one that the run has bound, or the least of all that it has.
    pub fn next_bound(&self, after: Option<&Name>) -> Option<&Name>
        ensures { Least bytes_cmp (is_bound_after self.now (option_copied after.entry)) (option_copied result) }
    {
        let Some((name, _)) = self.bound.next_after(after) else {
            return None;
        };
        Some(name)
    }

    /// Puts a change at a name. Refused, it changes nothing.
    pub fn set(&mut self, name: &Name, change: Change<ObjectId>) -> Result<(), NoMemory>
        ensures ok { OnOk result (self.new ≡ map.insert self.old name.now change) }
        ensures err { OnErr result (self.new ≡ self.old) }
    {
        let key = name.clone()?;
        let mark = name.clone()?;
        self.changes.reserve(1)?;
        self.bound.reserve(1)?;
        note_bound(&mut self.bound, mark, change.after.is_some());
        self.changes.insert(key, change);
        Ok(())
    }

    /// What the changes come to, in the order of the names. The names are moved, not copied; without a change it takes
    /// no memory.
    pub fn into_effects(self, alloc: Global) -> Result<NameEffects, NoMemory>
        ensures bound { IfOk result (λ effects. effects.bound.items ≡ picked (newly_set same_id) (map.entries self)) }
        ensures unbound { IfOk result (λ effects. effects.unbound.items ≡ keys_of (picked taken_away (map.entries self))) }
    {
        let NameChanges { changes, bound: _ } = self;
        let mut effects = NameEffects {
            bound: Vec::new(alloc),
            unbound: Vec::new(alloc),
        };
        for (name, change) in changes.into_entries(alloc)? {
            effects.add(name, change)?;
        }
        Ok(effects)
    }
}
