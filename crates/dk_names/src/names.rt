//! Bound names, by name.
ghost use Rattle.std.specs.Prelude.{◌≡◌, ◌+◌, ◌^◌, ◌<◌, ◌≤◌, map as list_map, None, Ok, IfOk, OnOk, OnErr, if◌then◌else◌};
ghost use Rattle.std.specs.FinMap as map;
ghost use Rattle.std.specs.Option.{option_copied};
ghost use Rattle.dk_model.specs.DurableWorlds.{next_name};
ghost use Rattle.dk_names.specs.Bindings.{ids_of, restamped};

use dk_map::OrderedMap;
use dk_types::{Name, NoMemory, ObjectId};
use std::alloc::Global;
use std::marker::Model;

/// The bound names, each with its id and its stamp: the number of the commit that wrote it last.
#[derive(Drop)]
pub struct Names {
    names: OrderedMap<Name, (ObjectId, u64)>,
}

impl Model for Names {
    ghost use Rattle.dk_types.specs.Names.{bytes_cmp};
    ghost use Rattle.dk_map.specs.AsMap.{map_of};
    ghost use Rattle.dk_map.specs.Entries.{IsOrdered};
    ghost use Rattle.dk_names.specs.Bindings.{Bindings, bindings_code};

    ghost Value = { Bindings };

    ghost coded = { bindings_code };

    ghost view = { λ a. record { names = map_of bytes_cmp a.names.entries; spare = a.names.spare } };

    ghost invariant = { λ a. IsOrdered bytes_cmp a.names.entries };
}

impl Names {
    /// No names and no room. It takes no memory.
    pub fn new(alloc: Global) -> Names
        ensures empty { result.names ≡ map.empty }
        ensures spare { result.spare ≡ 0 }
    {
        Names {
            names: OrderedMap::new(alloc),
        }
    }

    /// How many names are bound.
    pub fn len(&self) -> u64
        ensures len { result ≡ map.len self.now.names }
        ensures small { map.len self.now.names + self.now.spare < 2 ^ 63 }
    {
        self.names.len() as u64
    }

    /// How many more names fit without memory.
    pub fn spare(&self) -> u64
        ensures { result ≡ self.now.spare }
    {
        self.names.spare() as u64
    }

    /// Makes `spare` at least `more`. Where memory is refused nothing changes.
    pub fn reserve(&mut self, more: u64) -> Result<(), NoMemory>
        ensures names { self.new.names ≡ self.old.names }
        ensures room { OnOk result (more ≤ self.new.spare) }
        ensures kept { self.old.spare ≤ self.new.spare }
        ensures had_room { more ≤ self.old.spare → (self.new ≡ self.old) × (result ≡ Ok tt) }
        ensures refused { OnErr result (self.new ≡ self.old) }
    {
        self.names.reserve(more as usize)?;
        Ok(())
    }

    /// The id that a name is bound to, and its stamp.
    pub fn get(&self, name: &Name) -> Option<(ObjectId, u64)>
        ensures { result ≡ map.get self.now.names name.now }
    {
        self.names.get(name).copied()
    }

    /// The least bound name above `after`, or the least of all.
    pub fn next_after(&self, after: Option<&Name>) -> Option<&Name>
        ensures { option_copied result ≡ next_name (ids_of self.now.names) (option_copied after.entry) }
    {
        let Some((name, _)) = self.names.next_after(after) else {
            return None;
        };
        Some(name)
    }

    /// Binds a name. A name that is bound gets the new id and stamp; any other takes one of `spare`, and no memory.
    pub fn put(&mut self, name: Name, id: ObjectId, stamp: u64)
        requires room { map.get self.old.names name ≡ None → 0 < self.old.spare }
        ensures names { self.new.names ≡ map.insert self.old.names name (id, stamp) }
        ensures spare { self.new.spare + (if map.contains_key self.old.names name then 0 else 1) ≡ self.old.spare }
    {
        self.names.insert(name, (id, stamp));
    }

    /// Unbinds a name, if it is bound. Its room is spare from then on.
    pub fn remove(&mut self, name: &Name)
        ensures names { self.new.names ≡ map.remove self.old.names name.now }
        ensures spare { self.new.spare ≡ self.old.spare + (if map.contains_key self.old.names name.now then 1 else 0) }
    {
        self.names.remove(name);
    }

    /// Gives a name another stamp, if it is bound. It takes no memory, and the name is not copied.
    pub fn restamp(&mut self, name: &Name, stamp: u64)
        ensures names { self.new.names ≡ restamped stamp name.now self.old.names }
        ensures spare { self.new.spare ≡ self.old.spare }
    {
        self.names.change(name, |binding| binding.1 = stamp);
    }

    /// All bound names in their order, in one walk. Only the list itself takes memory.
    pub fn entries(&self, alloc: Global) -> Result<Vec<(&Name, &(ObjectId, u64))>, NoMemory>
        ensures { IfOk result (λ list. list_map (λ e. (e.0.now, e.1.now)) list.items ≡ map.entries self.now.names) }
    {
        Ok(self.names.entries(alloc)?)
    }
}
