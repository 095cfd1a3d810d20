// The map: a tree, and the empty cells that wait for further entries.
ghost use Rattle.std.specs.Prelude.{◌≡◌, ◌+◌, ◌^◌, ◌<◌, ◌≤◌, [], ◌++◌, length, map, None, Some, IfSome, IfOk, OnErr, OnOk, is_some, IsTrue, ◌↔◌, if◌then◌else◌, Ok, vec_len, vec_capacity};
ghost use Rattle.std.specs.Option.{option_map, option_copied};
ghost use Rattle.std.specs.declared.cmp.Ordering.TheVariants.{Equal};
ghost use Rattle.std.specs.Fn.{FnOnceReturnsAtMut};
ghost use Rattle.dk_map.specs.Entries.{find, put, without, first_entry, entry_after, IsOrdered, IsChanged};

use crate::tree::{Cell, Tree};
use std::alloc::{AllocError, Global};
use std::marker::Model;

/// An ordered map whose room is made in advance. The room that was made stays until the map is dropped.
#[derive(Drop)]
pub struct OrderedMap<K: Ord, V> {
    tree: Tree<K, V>,
    len: usize,
    cells: Vec<Cell<K, V>>,
    alloc: Global,
}

impl<K: Ord, V> Model for OrderedMap<K, V> {
    ghost use Rattle.std.specs.Prelude.{◌≡◌, ◌+◌, ◌≤◌, length, vec_len, vec_capacity};
    ghost use Rattle.dk_map.specs.OrderedMap.{Ordered, ordered_code};
    ghost use Rattle.dk_map.specs.Entries.{IsOrdered};

    ghost Value = { Ordered K V };

    ghost coded = { ordered_code K.code V.code };

    ghost view = { λ a. record { entries = a.tree.0; spare = vec_len a.cells } };

    ghost invariant = { λ a. IsOrdered K.cmp a.tree.0 × (a.len ≡ length a.tree.0) × (a.len + vec_len a.cells ≤ vec_capacity a.cells) };
}

impl<K: Ord, V> OrderedMap<K, V> {
    /// An empty map, which takes no memory.
    pub fn new(alloc: Global) -> OrderedMap<K, V>
        ensures empty { result.entries ≡ [] }
        ensures spare { result.spare ≡ 0 }
    {
        OrderedMap {
            tree: Tree::leaf(),
            len: 0,
            cells: Vec::new(alloc),
            alloc,
        }
    }

    /// How many entries there are.
    pub fn len(&self) -> usize
        ensures len { result ≡ length self.now.entries }
        ensures ordered { IsOrdered K.cmp self.now.entries }
        ensures small { length self.now.entries + self.now.spare < 2 ^ 63 }
    {
        self.len
    }

    /// Whether there is no entry.
    pub fn is_empty(&self) -> bool
        ensures { IsTrue result ↔ (length self.now.entries ≡ 0) }
    {
        self.len == 0
    }

    /// How many more entries fit without memory.
    pub fn spare(&self) -> usize
        ensures { result ≡ self.now.spare }
    {
        self.cells.len()
    }

    /// The value at a key.
    pub fn get(&self, key: &K) -> Option<&V>
        ensures { option_copied result ≡ find K.cmp key.now self.now.entries }
    {
        self.tree.get(key)
    }

    /// Whether there is an entry at a key.
    pub fn contains_key(&self, key: &K) -> bool
        ensures { result ≡ is_some (find K.cmp key.now self.now.entries) }
    {
        self.get(key).is_some()
    }

    /// The entry with the least key.
    pub fn first(&self) -> Option<(&K, &V)>
        ensures { option_map (λ e. (e.0.now, e.1.now)) result ≡ first_entry self.now.entries }
    {
        self.tree.first()
    }

    /// The entry with the least key above `after`, or with the least of all.
    pub fn next_after(&self, after: Option<&K>) -> Option<(&K, &V)>
        ensures { option_map (λ e. (e.0.now, e.1.now)) result ≡ entry_after K.cmp (option_copied after.entry) self.now.entries }
    {
        match after {
            None => self.tree.first(),
            Some(key) => self.tree.above(key),
        }
    }

    /// References to all entries in the order of their keys, in one walk. Only the list itself takes memory.
    pub fn entries(&self, alloc: Global) -> Result<Vec<(&K, &V)>, AllocError>
        ensures { IfOk result (λ list. map (λ e. (e.0.now, e.1.now)) list.items ≡ self.now.entries) }
    {
        let mut list = Vec::with_capacity(alloc, self.len)?;
        self.tree.list_into(&mut list);
        Ok(list)
    }
}

impl<K: Ord + Drop, V: Drop> OrderedMap<K, V> {
    /// Makes room for `more` entries. Where memory is refused nothing changes.
    pub fn reserve(&mut self, more: usize) -> Result<(), AllocError>
        ensures entries { self.new.entries ≡ self.old.entries }
        ensures room { OnOk result (more ≤ self.new.spare) }
        ensures kept { self.old.spare ≤ self.new.spare }
        ensures had_room { more ≤ self.old.spare → (self.new ≡ self.old) × (result ≡ Ok tt) }
        ensures refused { OnErr result (self.new ≡ self.old) }
    {
        let had = self.cells.len();
        if more <= had {
            return Ok(());
        }
        let Some(total) = self.len.checked_add(more - had) else {
            return Err(AllocError);
        };
        self.cells.reserve(total)?;
        fill(&mut self.cells, self.alloc, more)
    }

    /// Puts a value at a key. At a new key it uses one of `spare`, and no memory. At a key that is there it gives
    /// the old value, and the key that is there stays.
    pub fn insert(&mut self, key: K, value: V) -> Option<V>
        requires room { find K.cmp key self.old.entries ≡ None → 0 < self.old.spare }
        ensures old { result ≡ find K.cmp key self.old.entries }
        ensures entries { self.new.entries ≡ put K.cmp key value self.old.entries }
        ensures spare { self.new.spare + (if is_some result then 0 else 1) ≡ self.old.spare }
        ensures ordered { IsOrdered K.cmp self.new.entries }
    {
        let mut value = value;
        if self.tree.swap(&key, &mut value) {
            return Some(value);
        }
        self.insert_new(key, value);
        None
    }

    /// Puts a value at a key that is not there, and so does not look for it first. It uses one of `spare`, and no memory.
    pub fn insert_new(&mut self, key: K, value: V)
        requires absent { find K.cmp key self.old.entries ≡ None }
        requires room { 0 < self.old.spare }
        ensures entries { self.new.entries ≡ put K.cmp key value self.old.entries }
        ensures spare { self.new.spare + 1 ≡ self.old.spare }
        ensures ordered { IsOrdered K.cmp self.new.entries }
    {
        prove!(self.tree.height() < 128);
        let mut entry = Some((key, value));
        self.tree.insert(&mut entry, &mut self.cells);
        self.len += 1;
    }

    /// Changes the value at a key where it stands, if there is one, and gives what the change answers. Nothing is moved.
    pub fn change<A, F: FnOnce(&mut V) -> A>(&mut self, key: &K, change: F) -> Option<A>
        requires callable { F.IsAlwaysCallable change }
        ensures changed { IsChanged K.cmp key.now (λ old new answer. FnOnceReturnsAtMut F.FnOnce change old answer new) self.old.entries self.new.entries result }
        ensures spare { self.new.spare ≡ self.old.spare }
        ensures ordered { IsOrdered K.cmp self.new.entries }
    {
        let mut change = Some(change);
        let mut answer = None;
        self.tree.change(key, &mut change, &mut answer);
        answer
    }

    /// Takes the entry at a key out, if there is one. Its room is spare from then on.
    pub fn remove(&mut self, key: &K) -> Option<(K, V)>
        ensures value { option_map (λ e. e.1) result ≡ find K.cmp key.now self.old.entries }
        ensures same_key { IfSome result (λ e. K.cmp key.now e.0 ≡ Equal) }
        ensures entries { self.new.entries ≡ without K.cmp key.now self.old.entries }
        ensures spare { self.new.spare ≡ self.old.spare + (if is_some result then 1 else 0) }
        ensures ordered { IsOrdered K.cmp self.new.entries }
    {
        if self.len == 0 {
            return None;
        }
        prove!(self.tree.height() < 128);
        let mut removed = None;
        self.tree.remove(key, &mut self.cells, &mut removed);
        if removed.is_some() {
            self.len -= 1;
        }
        removed
    }

    /// All entries in the order of their keys, moved out in one walk. Only the list itself takes memory.
    pub fn into_entries(self, alloc: Global) -> Result<Vec<(K, V)>, AllocError>
        ensures { IfOk result (λ list. list.items ≡ self.entries) }
    {
        let OrderedMap {
            tree,
            len,
            cells: _,
            alloc: _,
        } = self;
        if len == 0 {
            return Ok(Vec::new(alloc));
        }
        let mut list = Vec::with_capacity(alloc, len)?;
        tree.move_into(&mut list);
        Ok(list)
    }
}

/// Adds empty cells until there are `most`. Where memory is refused the list is as it was.
fn fill<K: Drop, V: Drop>(
    cells: &mut Vec<Cell<K, V>>,
    alloc: Global,
    most: usize,
) -> Result<(), AllocError>
    requires less { vec_len cells.old ≤ most }
    requires room { most ≤ vec_capacity cells.old }
    ensures capacity { vec_capacity cells.new ≡ vec_capacity cells.old }
    ensures filled { OnOk result (vec_len cells.new ≡ most) }
    ensures refused { OnErr result (vec_len cells.new ≡ vec_len cells.old) }
{
    let had = cells.len();
    'fill: while cells.len() < most {
        match Box::new(alloc, None) {
            Ok(cell) => cells.push_reserved(cell),
            Err(_) => {
                cells.truncate(had);
                return Err(AllocError);
            }
        }
    }
    Ok(())
}
