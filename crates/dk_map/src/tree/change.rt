// How an entry comes into a tree, and how it leaves.
ghost use Rattle.std.specs.Prelude.{◌≡◌, [], ◌∷◌, ◌++◌, ◌+◌, ◌-◌, ◌^◌, ◌<◌, ◌≤◌, max, None, Some, IfSome, IsSome, is_some, false, length, if◌then◌else◌, vec_len, vec_capacity};
ghost use Rattle.std.specs.Option.{option_map, IsSomeAnd};
ghost use Rattle.std.specs.declared.cmp.Ordering.TheVariants.{Equal};
ghost use Rattle.dk_map.specs.Balance.{DifferByAtMost, IsLowerAvl, IsApart};
ghost use Rattle.std.specs.Fn.{FnOnceReturnsAtMut};
ghost use Rattle.dk_map.specs.Entries.{find, without, IsOrdered, IsChanged};
ghost use Rattle.dk_map.specs.Puts.{IsNew, IsPut, IsSwapped};

use super::balance::settle;
use super::{Cell, Node, Tree};
use std::cmp::Ordering;
use std::mem;

impl<K: Ord + Drop, V: Drop> Tree<K, V> {
    /// Puts an entry in at a key that is not there, and tells whether the tree is higher.
    pub(crate) fn insert(&mut self, entry: &mut Option<(K, V)>, spare: &mut Vec<Cell<K, V>>) -> bool
        requires ordered { IsOrdered K.cmp self.old.0 }
        requires absent { IsNew K.cmp entry.old self.old.0 }
        requires room { 0 < vec_len spare.old }
        requires fits { self.old.1 < 2 ^ 8 - 2 }
        ensures put { IsPut K.cmp entry.old self.old.0 self.new.0 }
        ensures spare { vec_len spare.new + 1 ≡ vec_len spare.old }
        ensures capacity { vec_capacity spare.new ≡ vec_capacity spare.old }
        ensures grows { length self.old.0 ≤ length self.new.0 }
        ensures as_high { result ≡ false → self.new.1 ≡ self.old.1 }
        ensures not_lower { self.old.1 ≤ self.new.1 }
        ensures at_most_one_higher { self.new.1 ≤ self.old.1 + 1 }
    {
        match &mut self.root {
            None => {
                self.plant(entry, spare);
                true
            }
            Some(cell) => match &mut **cell {
                None => unreachable!(),
                Some(node) => {
                    let Some((key, _)) = entry else {
                        unreachable!()
                    };
                    let higher = match (*key).cmp(&node.key) {
                        Ordering::Less => node.left.insert(entry, spare),
                        Ordering::Equal => unreachable!(),
                        Ordering::Greater => node.right.insert(entry, spare),
                    };
                    if !higher {
                        return false;
                    }
                    let before = self.height;
                    self.height = settle(cell);
                    self.height != before
                }
            },
        }
    }

    /// Makes a tree of an entry where there is none.
    #[cold]
    fn plant(&mut self, entry: &mut Option<(K, V)>, spare: &mut Vec<Cell<K, V>>)
        requires nowhere { self.old.0 ≡ [] }
        requires room { 0 < vec_len spare.old }
        requires there { IsSome entry.old }
        ensures put { IsPut K.cmp entry.old self.old.0 self.new.0 }
        ensures spare { vec_len spare.new + 1 ≡ vec_len spare.old }
        ensures capacity { vec_capacity spare.new ≡ vec_capacity spare.old }
        ensures height { self.new.1 ≡ 1 }
    {
        let Some(mut cell) = spare.pop() else {
            unreachable!()
        };
        let Some((key, value)) = mem::replace(entry, None) else {
            unreachable!()
        };
        *cell = Some(Node {
            left: Tree::leaf(),
            key,
            value,
            right: Tree::leaf(),
        });
        self.root = Some(cell);
        self.height = 1;
    }

    /// Changes the value at a key where it stands, if there is one. What the change answers is put into `answer`.
    pub(crate) fn change<A, F: FnOnce(&mut V) -> A>(
        &mut self,
        key: &K,
        change: &mut Option<F>,
        answer: &mut Option<A>,
    )
        requires ordered { IsOrdered K.cmp self.old.0 }
        requires callable { IsSomeAnd change.old (λ f. F.IsAlwaysCallable f) }
        requires nothing { answer.old ≡ None }
        ensures changed { IsSomeAnd change.old (λ f. IsChanged K.cmp key.now (λ old new answer. FnOnceReturnsAtMut F.FnOnce f old answer new) self.old.0 self.new.0 answer.new) }
        ensures len { length self.new.0 ≡ length self.old.0 }
        ensures height { self.new.1 ≡ self.old.1 }
    {
        match &mut self.root {
            None => {}
            Some(cell) => match &mut **cell {
                None => unreachable!(),
                Some(node) => match key.cmp(&node.key) {
                    Ordering::Less => node.left.change(key, change, answer),
                    Ordering::Equal => {
                        let Some(change) = mem::replace(change, None) else {
                            unreachable!()
                        };
                        match mem::replace(answer, Some(change(&mut node.value))) {
                            None => {}
                            Some(_) => unreachable!(),
                        }
                    }
                    Ordering::Greater => node.right.change(key, change, answer),
                },
            },
        }
    }

    /// Changes places with the value at a key, and tells whether there is one.
    pub(crate) fn swap(&mut self, key: &K, value: &mut V) -> bool
        requires { IsOrdered K.cmp self.old.0 }
        ensures swapped { IsSwapped K.cmp key.now value.old value.new self.old.0 self.new.0 result }
        ensures len { length self.new.0 ≡ length self.old.0 }
        ensures height { self.new.1 ≡ self.old.1 }
    {
        match &mut self.root {
            None => false,
            Some(cell) => match &mut **cell {
                None => unreachable!(),
                Some(node) => match key.cmp(&node.key) {
                    Ordering::Less => node.left.swap(key, value),
                    Ordering::Equal => {
                        mem::swap(&mut node.value, value);
                        true
                    }
                    Ordering::Greater => node.right.swap(key, value),
                },
            },
        }
    }

    /// Takes the entry at a key out, if there is one, and puts it into `found`. Its cell is spare from then on.
    pub(crate) fn remove(
        &mut self,
        key: &K,
        spare: &mut Vec<Cell<K, V>>,
        found: &mut Option<(K, V)>,
    )
        requires ordered { IsOrdered K.cmp self.old.0 }
        requires room { vec_len spare.old < vec_capacity spare.old }
        requires fits { self.old.1 < 2 ^ 8 - 2 }
        requires nothing { found.old ≡ None }
        ensures value { option_map (λ e. e.1) found.new ≡ find K.cmp key.now self.old.0 }
        ensures same_key { IfSome found.new (λ e. K.cmp key.now e.0 ≡ Equal) }
        ensures entries { self.new.0 ≡ without K.cmp key.now self.old.0 }
        ensures spare { vec_len spare.new ≡ vec_len spare.old + (if is_some found.new then 1 else 0) }
        ensures capacity { vec_capacity spare.new ≡ vec_capacity spare.old }
        ensures not_higher { self.new.1 ≤ self.old.1 }
        ensures at_most_one_lower { self.old.1 ≤ self.new.1 + 1 }
    {
        let Some(cell) = &self.root else {
            return;
        };
        let Some(node) = &**cell else { unreachable!() };
        let order = key.cmp(&node.key);
        if let Ordering::Equal = order {
            let Some(cell) = mem::replace(&mut self.root, None) else {
                unreachable!()
            };
            *self = take_top(cell, spare, found);
            return;
        }
        match &mut self.root {
            None => unreachable!(),
            Some(cell) => match &mut **cell {
                None => unreachable!(),
                Some(node) => {
                    match order {
                        Ordering::Less => node.left.remove(key, spare, found),
                        _ => node.right.remove(key, spare, found),
                    }
                    self.height = settle(cell);
                }
            },
        }
    }
}

impl<K: Drop, V: Drop> Tree<K, V> {
    /// Takes the first entry out and puts it into `found`.
    fn take_first(&mut self, spare: &mut Vec<Cell<K, V>>, found: &mut Option<(K, V)>)
        requires nonempty { 0 < self.old.1 }
        requires room { vec_len spare.old < vec_capacity spare.old }
        requires fits { self.old.1 < 2 ^ 8 - 2 }
        ensures entries { IsSomeAnd found.new (λ e. self.old.0 ≡ e ∷ self.new.0) }
        ensures spare { vec_len spare.new ≡ vec_len spare.old + 1 }
        ensures capacity { vec_capacity spare.new ≡ vec_capacity spare.old }
        ensures not_higher { self.new.1 ≤ self.old.1 }
        ensures at_most_one_lower { self.old.1 ≤ self.new.1 + 1 }
    {
        let Some(cell) = &self.root else {
            unreachable!()
        };
        let Some(node) = &**cell else { unreachable!() };
        if node.left.height() == 0 {
            let Some(mut cell) = mem::replace(&mut self.root, None) else {
                unreachable!()
            };
            let Some(node) = mem::replace(&mut *cell, None) else {
                unreachable!()
            };
            spare.push_reserved(cell);
            let Node {
                left: _,
                key,
                value,
                right,
            } = node;
            *self = right;
            *found = Some((key, value));
            return;
        }
        match &mut self.root {
            None => unreachable!(),
            Some(cell) => match &mut **cell {
                None => unreachable!(),
                Some(node) => {
                    node.left.take_first(spare, found);
                    self.height = settle(cell);
                }
            },
        }
    }
}

/// The tree of the two sides of a full cell, whose entry goes into `found`.
#[cold]
fn take_top<K: Drop, V: Drop>(
    mut cell: Cell<K, V>,
    spare: &mut Vec<Cell<K, V>>,
    found: &mut Option<(K, V)>,
) -> Tree<K, V>
    requires full { IsLowerAvl cell.value }
    requires room { vec_len spare.old < vec_capacity spare.old }
    ensures parts { IsApart cell.value found.new result }
    ensures spare { vec_len spare.new ≡ vec_len spare.old + 1 }
    ensures capacity { vec_capacity spare.new ≡ vec_capacity spare.old }
{
    let Some(node) = mem::replace(&mut *cell, None) else {
        unreachable!()
    };
    let Node {
        left,
        key,
        value,
        right,
    } = node;
    *found = Some((key, value));
    join(cell, left, right, spare)
}

/// One tree of two, the second of which stands after the first. The cell between them is used again or is spare.
fn join<K: Drop, V: Drop>(
    mut cell: Cell<K, V>,
    left: Tree<K, V>,
    mut right: Tree<K, V>,
    spare: &mut Vec<Cell<K, V>>,
) -> Tree<K, V>
    requires empty { cell.value ≡ None }
    requires room { vec_len spare.old < vec_capacity spare.old }
    requires balanced { DifferByAtMost 1 left.1 right.1 }
    requires fits { max left.1 right.1 < 2 ^ 8 - 2 }
    ensures entries { result.0 ≡ left.0 ++ right.0 }
    ensures spare { vec_len spare.new ≡ vec_len spare.old + 1 }
    ensures capacity { vec_capacity spare.new ≡ vec_capacity spare.old }
    ensures not_lower { max left.1 right.1 ≤ result.1 }
    ensures at_most_one_higher { result.1 ≤ max left.1 right.1 + 1 }
{
    if right.height() == 0 {
        spare.push_reserved(cell);
        return left;
    }
    let mut first = None;
    right.take_first(spare, &mut first);
    let Some((key, value)) = first else {
        unreachable!()
    };
    match mem::replace(
        &mut *cell,
        Some(Node {
            left,
            key,
            value,
            right,
        }),
    ) {
        None => {}
        Some(_) => unreachable!(),
    }
    let height = settle(&mut *cell);
    Tree {
        root: Some(cell),
        height,
    }
}
