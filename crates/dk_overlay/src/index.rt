// The places of items in a list of reads.
ghost use Rattle.std.specs.Prelude.{◌≡◌, OnOk, OnErr, IfOk};
ghost use Rattle.dk_overlay.specs.Asked.{place_in, AddsPlace, IsOnce, IsIndexed};

use crate::small_map::SmallMap;
use dk_types::{Item, Name, NoMemory, ObjectId, Read, TaskKey};
use std::alloc::Global;
use std::marker::Model;

/// The place of each item in a list of reads.
pub(crate) struct Index {
    objects: SmallMap<ObjectId, usize>,
    names: SmallMap<Name, usize>,
    first: Option<usize>,
    nexts: SmallMap<Name, usize>,
    tasks: SmallMap<TaskKey, usize>,
}

impl Drop for Index {
    fn drop(self) {
        let Index {
            objects: _,
            names: _,
            first: _,
            nexts: _,
            tasks: _,
        } = self;
    }
}

impl Model for Index {
    ghost use Rattle.dk_types.specs.Names.{bytes_cmp};
    ghost use Rattle.dk_types.specs.Keys.{id_cmp, key_cmp};
    ghost use Rattle.dk_map.specs.Entries.{IsOrdered};
    ghost use Rattle.dk_overlay.specs.Asked.{Places};
    ghost use Rattle.dk_overlay.specs.Codes.{places_code};

    ghost Value = { Places };

    ghost coded = { places_code };

    ghost view = { λ a. record { objects = a.objects.entries; names = a.names.entries; first = a.first; nexts = a.nexts.entries; tasks = a.tasks.entries } };

    ghost invariant = { λ a. IsOrdered id_cmp a.objects.entries × IsOrdered bytes_cmp a.names.entries × IsOrdered bytes_cmp a.nexts.entries × IsOrdered key_cmp a.tasks.entries };
}

impl Index {
    ghost use Rattle.dk_overlay.specs.Asked.{no_places};

    pub(crate) fn new(alloc: Global) -> Index
        ensures { result ≡ no_places }
    {
        Index {
            objects: SmallMap::new(alloc),
            names: SmallMap::new(alloc),
            first: None,
            nexts: SmallMap::new(alloc),
            tasks: SmallMap::new(alloc),
        }
    }

    /// The places of the items of a list.
    pub(crate) fn of(alloc: Global, list: &[(Item, Read)]) -> Result<Index, NoMemory>
        requires { IsOnce list.now }
        ensures { IfOk result (λ index. IsIndexed list.now (place_in index)) }
    {
        let mut index = Index::new(alloc);
        for (at, (item, _)) in list.iter().enumerate() {
            index.add(item, at)?;
        }
        Ok(index)
    }

    pub(crate) fn get(&self, item: &Item) -> Option<usize>
        ensures { result ≡ place_in self.now item.now }
    {
        match item {
            Item::Object(id) => self.objects.get(id).copied(),
            Item::Bound(name) => self.names.get(name).copied(),
            Item::NextAfter(None) => self.first,
            Item::NextAfter(Some(after)) => self.nexts.get(after).copied(),
            Item::Task(key) => self.tasks.get(key).copied(),
        }
    }

    /// Gives an item a place. Refused, it changes nothing.
    pub(crate) fn add(&mut self, item: &Item, at: usize) -> Result<(), NoMemory>
        ensures ok { OnOk result (AddsPlace (place_in self.old) (place_in self.new) item.now at) }
        ensures err { OnErr result (self.new ≡ self.old) }
    {
        match item {
            Item::Object(id) => {
                self.objects.reserve(1)?;
                self.objects.insert(*id, at);
            }
            Item::Bound(name) => {
                let name = name.clone()?;
                self.names.reserve(1)?;
                self.names.insert(name, at);
            }
            Item::NextAfter(None) => self.first = Some(at),
            Item::NextAfter(Some(after)) => {
                let after = after.clone()?;
                self.nexts.reserve(1)?;
                self.nexts.insert(after, at);
            }
            Item::Task(key) => {
                self.tasks.reserve(1)?;
                self.tasks.insert(*key, at);
            }
        }
        Ok(())
    }
}
