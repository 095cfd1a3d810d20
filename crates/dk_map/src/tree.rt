// An AVL tree of owned nodes. A cell is the room of one node; an empty one waits to be used.
ghost use Rattle.std.specs.Prelude.{◌≡◌, [], ◌∷◌, ◌++◌, ◌+◌, ◌-◌, ◌^◌, ◌<◌, ◌≤◌, max, length, None, IfNone, IfSome};
ghost use Rattle.dk_map.specs.Balance.{node_entries, node_height, DifferByAtMost, IsLow};

use std::marker::Model;
use std::mem;

mod balance;
pub(crate) mod change;
mod search;
mod taking;

pub(crate) type Cell<K, V> = Box<Option<Node<K, V>>>;

#[cycle(tree)]
#[derive(Drop)]
pub(crate) struct Tree<K, V> {
    root: Option<Box<Option<Node<K, V>>>>,
    height: u8,
}

#[cycle(tree)]
#[derive(Drop)]
pub(crate) struct Node<K, V> {
    // What a search reads stands together, before the value.
    key: K,
    left: Tree<K, V>,
    right: Tree<K, V>,
    value: V,
}

impl<K, V> Model for Tree<K, V> {
    ghost use Rattle.std.specs.Prelude.{ℕ, List, length};

    ghost Value = { List (K × V) × ℕ };

    ghost use Rattle.dk_map.specs.Balance.{root_entries, IsAvl};

    ghost view = { λ a. (root_entries a.root, a.height) };

    ghost invariant = { λ a. IsAvl a.root a.height };

    ghost size = { λ d. length d.0 };

    ghost use Rattle.std.proofs.Common.{arith, length-append};

    ghost size_decreases = { λ a h. Prim.grind (arith, length-append) };
}

impl<K, V> Tree<K, V> {
    pub(crate) fn leaf() -> Tree<K, V>
        ensures { result ≡ ([], 0) }
    {
        Tree {
            root: None,
            height: 0,
        }
    }

    /// How many levels of nodes there are.
    pub(crate) fn height(&self) -> u8
        ensures height { result ≡ self.now.1 }
        ensures empty { result ≡ 0 → self.now.0 ≡ [] }
        ensures low { IsLow self.now.1 (length self.now.0) }
    {
        self.height
    }

    /// The node at the top, if the tree has any.
    fn node(&self) -> Option<&Node<K, V>>
        ensures none { IfNone result (self.now.0 ≡ []) }
        ensures some { IfSome result (λ n. self.now.0 ≡ node_entries n.now) }
    {
        let Some(cell) = &self.root else {
            return None;
        };
        let Some(node) = &**cell else { unreachable!() };
        Some(node)
    }

    /// Takes a tree apart into its top node and the cell that held it.
    fn open(self) -> (Cell<K, V>, Node<K, V>)
        requires { 0 < self.1 }
        ensures empty { result.0.value ≡ None }
        ensures entries { node_entries result.1 ≡ self.0 }
        ensures height { node_height result.1 ≡ self.1 }
        ensures balanced { DifferByAtMost 1 result.1.left.1 result.1.right.1 }
    {
        let Tree { root, height: _ } = self;
        let Some(mut cell) = root else { unreachable!() };
        let Some(node) = mem::replace(&mut *cell, None) else {
            unreachable!()
        };
        (cell, node)
    }

    /// The tree of a node, which an empty cell takes up.
    fn close(mut cell: Cell<K, V>, node: Node<K, V>) -> Tree<K, V>
        requires empty { cell.value ≡ None }
        requires balanced { DifferByAtMost 1 node.left.1 node.right.1 }
        requires fits { node_height node < 2 ^ 8 }
        ensures { result ≡ (node_entries node, node_height node) }
    {
        let height = node.height();
        match mem::replace(&mut *cell, Some(node)) {
            None => {}
            Some(_) => unreachable!(),
        }
        Tree {
            root: Some(cell),
            height,
        }
    }
}

impl<K, V> Node<K, V> {
    /// How many levels of nodes there are from this one down.
    fn height(&self) -> u8
        requires fits { node_height self.now < 2 ^ 8 }
        ensures height { result ≡ node_height self.now }
        ensures low { DifferByAtMost 1 self.now.left.1 self.now.right.1 → IsLow result (length (node_entries self.now)) }
    {
        self.left.height().max(self.right.height()) + 1
    }
}
