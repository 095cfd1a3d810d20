// The map that finds its entries by a hash of their keys, and how many more it has promised room for.
ghost use Rattle.std.specs.Prelude.{◌≡◌, ◌+◌, ◌^◌, ◌<◌, ◌≤◌, [], length, map as list_map, None, IfSome, IfOk, OnErr, OnOk, is_some, IsTrue, ◌↔◌, if◌then◌else◌, Ok, Some};
ghost use Rattle.std.specs.List.Sorted.{IsPermutation};
ghost use Rattle.std.specs.Option.{option_map, option_copied};
ghost use Rattle.std.specs.FinMap.{IsAntisymmetric};
ghost use Rattle.std.specs.declared.cmp.Ordering.TheVariants.{Equal};
ghost use Rattle.std.specs.Fn.{FnOnceReturnsAtMut};
ghost use Rattle.dk_map.specs.Entries.{find, put, without, IsOrdered, IsChanged};

use crate::key_hasher::KeyHasher;
use std::alloc::{AllocError, Global};
use std::collections::HashMap;
use std::hash::{BuildHasherDefault, Hash};
use std::marker::Model;
use std::mem;

/// So many entries and places for more there are at most.
const MOST: usize = usize::MAX >> 1;

/// The table behind it.
type Table<K, V> = HashMap<K, V, BuildHasherDefault<KeyHasher>>;

/// A map whose room is made in advance, and which finds an entry by a hash of its key: for keys that are only looked up. The
/// room that was made stays until the map is dropped.
#[derive(Drop)]
pub struct HashedMap<K: Ord + Hash, V> {
    map: Table<K, V>,
    spare: usize,
}

impl<K: Ord + Hash, V> Model for HashedMap<K, V> {
    ghost use Rattle.std.specs.Prelude.{◌+◌, ◌^◌, ◌<◌, ◌≤◌};
    ghost use Rattle.std.specs.FinMap.{IsAntisymmetric};
    ghost use Rattle.std.specs.HashMap.{hash_map_len, IsUnique, spare as free_in};
    ghost use Rattle.dk_map.specs.OrderedMap.{Ordered, ordered_code};
    ghost use Rattle.dk_hashed.specs.InOrder.{in_order};

    ghost Value = { Ordered K V };

    ghost coded = { ordered_code K.code V.code };

    ghost view = { λ a. record { entries = in_order K.cmp a.map.entries; spare = a.spare } };

    ghost invariant = { λ a. IsAntisymmetric K.cmp × IsUnique K.eq a.map × (a.spare ≤ free_in a.map) × (hash_map_len a.map + a.spare < 2 ^ 63) };
}

impl<K: Ord + Hash, V> HashedMap<K, V> {
    /// An empty map, which takes no memory. Keys that the order does not tell apart are the same.
    pub fn new(alloc: Global) -> HashedMap<K, V>
        requires same { IsAntisymmetric K.cmp }
        ensures empty { result.entries ≡ [] }
        ensures spare { result.spare ≡ 0 }
    {
        HashedMap {
            map: HashMap::with_hasher(alloc, BuildHasherDefault::new()),
            spare: 0,
        }
    }

    /// How many entries there are.
    pub fn len(&self) -> usize
        ensures len { result ≡ length self.now.entries }
        ensures ordered { IsOrdered K.cmp self.now.entries }
        ensures small { length self.now.entries + self.now.spare < 2 ^ 63 }
    {
        self.map.len()
    }

    /// Whether there is no entry.
    pub fn is_empty(&self) -> bool
        ensures { IsTrue result ↔ (length self.now.entries ≡ 0) }
    {
        self.len() == 0
    }

    /// How many more entries fit without memory.
    pub fn spare(&self) -> usize
        ensures { result ≡ self.now.spare }
    {
        self.spare
    }

    /// The value at a key.
    pub fn get(&self, key: &K) -> Option<&V>
        ensures { option_copied result ≡ find K.cmp key.now self.now.entries }
    {
        self.map.get(key)
    }

    /// Whether there is an entry at a key.
    pub fn contains_key(&self, key: &K) -> bool
        ensures { result ≡ is_some (find K.cmp key.now self.now.entries) }
    {
        self.map.contains_key(key)
    }

    /// References to all entries in the order of their keys. Only the list itself, and what sorts it, take memory.
    pub fn entries(&self, alloc: Global) -> Result<Vec<(&K, &V)>, AllocError>
        ensures { IfOk result (λ list. list_map (λ e. (e.0.now, e.1.now)) list.items ≡ self.now.entries) }
    {
        let mut list = shown(&self.map, alloc)?;
        list.sort_by_key(|entry| entry.0)?;
        Ok(list)
    }

    /// References to all entries in no order, as the table has them. Only the list itself takes memory.
    pub fn unordered(&self, alloc: Global) -> Result<Vec<(&K, &V)>, AllocError>
        ensures { IfOk result (λ list. IsPermutation (list_map (λ e. (e.0.now, e.1.now)) list.items) self.now.entries) }
    {
        shown(&self.map, alloc)
    }
}

/// References to all entries of a table, as they stand there.
fn shown<K: Ord + Hash, V>(map: &Table<K, V>, alloc: Global) -> Result<Vec<(&K, &V)>, AllocError>
    ensures { IfOk result (λ list. list_map (λ e. (e.0.now, e.1.now)) list.items ≡ map.now.entries) }
{
    map.iter().collect(alloc)
}

impl<K: Ord + Hash + Drop, V: Drop> HashedMap<K, V> {
    /// Makes room for `more` entries. Where memory is refused nothing changes.
    pub fn reserve(&mut self, more: usize) -> Result<(), AllocError>
        ensures entries { self.new.entries ≡ self.old.entries }
        ensures room { OnOk result (more ≤ self.new.spare) }
        ensures kept { self.old.spare ≤ self.new.spare }
        ensures had_room { more ≤ self.old.spare → (self.new ≡ self.old) × (result ≡ Ok tt) }
        ensures refused { OnErr result (self.new ≡ self.old) }
    {
        if more <= self.spare {
            return Ok(());
        }
        if more > MOST - self.map.len() {
            return Err(AllocError);
        }
        self.map.reserve(more)?;
        self.spare = more;
        Ok(())
    }

    /// Puts a value at a key. At a new key it uses one of `spare`, and no memory. At a key that is there it gives
    /// the old value, and the key that is there stays.
    pub fn insert(&mut self, key: K, value: V) -> Option<V>
        requires room { find K.cmp key self.old.entries ≡ None → 0 < self.old.spare }
        ensures old { result ≡ find K.cmp key self.old.entries }
        ensures entries { self.new.entries ≡ put K.cmp key value self.old.entries }
        ensures spare { self.new.spare + (if is_some result then 0 else 1) ≡ self.old.spare }
        ensures ordered { IsOrdered K.cmp self.new.entries }
    {
        if let Some(stored) = self.map.get_mut(&key) {
            return Some(mem::replace(stored, value));
        }
        self.add(key, value);
        None
    }

    /// Puts a value at a key that is not there.
    fn add(&mut self, key: K, value: V)
        requires absent { find K.cmp key self.old.entries ≡ None }
        requires room { 0 < self.old.spare }
        ensures entries { self.new.entries ≡ put K.cmp key value self.old.entries }
        ensures spare { self.new.spare + 1 ≡ self.old.spare }
        ensures ordered { IsOrdered K.cmp self.new.entries }
    {
        match self.map.insert(key, value) {
            Ok(_) => {}
            Err(_) => unreachable!(),
        }
        self.spare -= 1;
    }

    /// Changes the value at a key where it stands, if there is one, and gives what the change answers. Nothing is moved.
    pub fn change<A, F: FnOnce(&mut V) -> A>(&mut self, key: &K, change: F) -> Option<A>
        requires callable { F.IsAlwaysCallable change }
        ensures changed { IsChanged K.cmp key.now (λ old new answer. FnOnceReturnsAtMut F.FnOnce change old answer new) self.old.entries self.new.entries result }
        ensures spare { self.new.spare ≡ self.old.spare }
        ensures ordered { IsOrdered K.cmp self.new.entries }
    {
        let Some(value) = self.map.get_mut(key) else {
            return None;
        };
        Some(change(value))
    }

    /// Takes the entry at a key out, if there is one. Its room is spare from then on, where the table has it still.
    pub fn remove(&mut self, key: &K) -> Option<(K, V)>
        ensures value { option_map (λ e. e.1) result ≡ find K.cmp key.now self.old.entries }
        ensures same_key { IfSome result (λ e. K.cmp key.now e.0 ≡ Equal) }
        ensures entries { self.new.entries ≡ without K.cmp key.now self.old.entries }
        ensures kept { self.old.spare ≤ self.new.spare }
        ensures at_most_one { self.new.spare ≤ self.old.spare + (if is_some result then 1 else 0) }
        ensures ordered { IsOrdered K.cmp self.new.entries }
    {
        let removed = self.map.remove_entry(key);
        let unused = self.map.capacity() - self.map.len();
        let freed = if removed.is_some() { 1 } else { 0 };
        self.spare = unused.min(self.spare + freed);
        removed
    }
}
