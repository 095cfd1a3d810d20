// What a tree is asked.
ghost use Rattle.std.specs.Prelude.{◌≡◌, ◌+◌, ◌≤◌, ◌++◌, map, length, None, Some, vec_len, vec_capacity};
ghost use Rattle.std.specs.Option.{option_map, option_copied, option_or};
ghost use Rattle.dk_map.specs.Entries.{find, IsOrdered, first_entry, first_above};

use super::Tree;
use std::cmp::Ordering;

impl<K: Ord, V> Tree<K, V> {
    pub(crate) fn get(&self, key: &K) -> Option<&V>
        requires { IsOrdered K.cmp self.now.0 }
        ensures { option_copied result ≡ find K.cmp key.now self.now.0 }
    {
        let mut tree = self;
        'descent: while let Some(node) = tree.node() {
            tree = match key.cmp(&node.key) {
                Ordering::Less => &node.left,
                Ordering::Equal => return Some(&node.value),
                Ordering::Greater => &node.right,
            };
        }
        None
    }

    pub(crate) fn above(&self, key: &K) -> Option<(&K, &V)>
        requires { IsOrdered K.cmp self.now.0 }
        ensures { option_map (λ e. (e.0.now, e.1.now)) result ≡ first_above K.cmp key.now self.now.0 }
    {
        let mut tree = self;
        let mut nearest = None;
        'descent: while let Some(node) = tree.node() {
            if let Ordering::Less = key.cmp(&node.key) {
                nearest = Some((&node.key, &node.value));
                tree = &node.left;
            } else {
                tree = &node.right;
            }
        }
        nearest
    }
}

impl<K, V> Tree<K, V> {
    pub(crate) fn first(&self) -> Option<(&K, &V)>
        ensures { option_map (λ e. (e.0.now, e.1.now)) result ≡ first_entry self.now.0 }
    {
        let mut tree = self;
        let mut nearest = None;
        'descent: while let Some(node) = tree.node() {
            nearest = Some((&node.key, &node.value));
            tree = &node.left;
        }
        nearest
    }

    /// Puts references to the entries at the end of a list, in order.
    pub(crate) fn list_into<'a>(&'a self, out: &mut Vec<(&'a K, &'a V)>)
        requires { vec_len out.old + length self.now.0 ≤ vec_capacity out.old }
        ensures items { map (λ e. (e.0.now, e.1.now)) out.new.items ≡ map (λ e. (e.0.now, e.1.now)) out.old.items ++ self.now.0 }
        ensures len { vec_len out.new ≡ vec_len out.old + length self.now.0 }
        ensures capacity { vec_capacity out.new ≡ vec_capacity out.old }
    {
        let Some(node) = self.node() else {
            return;
        };
        node.left.list_into(out);
        out.push_reserved((&node.key, &node.value));
        node.right.list_into(out);
    }
}
