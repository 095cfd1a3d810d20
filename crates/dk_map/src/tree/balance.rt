// The rotations that keep a tree balanced.
ghost use Rattle.std.specs.Prelude.{◌≡◌, ◌∷◌, ◌++◌, ◌+◌, ◌-◌, ◌^◌, ◌<◌, ◌≤◌, max};
ghost use Rattle.dk_map.specs.Balance.{node_entries, node_height, near_height, far_height, on_sides, DifferByAtMost, IsLeaning, IsNearlyAvl, SettlesTo};

use super::{Node, Tree};
use std::mem;

/// A side of a node.
#[derive(Clone, Copy)]
pub(crate) enum Side {
    Left,
    Right,
}

/// Brings a node whose sides differ by two at most into balance, and gives its height.
#[inline(always)]
pub(super) fn settle<K, V>(cell: &mut Option<Node<K, V>>) -> u8
    requires { IsNearlyAvl cell.old }
    ensures { SettlesTo cell.old cell.new result }
{
    let Some(node) = cell else { unreachable!() };
    let (left, right) = (node.left.height(), node.right.height());
    if left > right + 1 {
        return turn(Side::Left, cell);
    }
    if right > left + 1 {
        return turn(Side::Right, cell);
    }
    node.height()
}

/// Turns the node of a cell, which is two levels higher on a side, and gives its height.
#[cold]
#[inline(never)]
fn turn<K, V>(side: Side, cell: &mut Option<Node<K, V>>) -> u8
    requires { IsLeaning side cell.old }
    ensures { SettlesTo cell.old cell.new result }
{
    let Some(node) = mem::replace(cell, None) else {
        unreachable!()
    };
    let node = lean(side, node);
    let height = node.height();
    match mem::replace(cell, Some(node)) {
        None => {}
        Some(_) => unreachable!(),
    }
    height
}

/// Turns a node whose near side is two levels higher to the far one.
fn lean<K, V>(side: Side, node: Node<K, V>) -> Node<K, V>
    requires two_higher { near_height side node ≡ far_height side node + 2 }
    requires fits { near_height side node < 2 ^ 8 - 1 }
    ensures entries { node_entries result ≡ node_entries node }
    ensures balanced { DifferByAtMost 1 result.left.1 result.right.1 }
    ensures not_lower { near_height side node ≤ node_height result }
    ensures at_most_one_higher { node_height result ≤ near_height side node + 1 }
{
    let (near, key, value, far) = node.apart(side);
    let (cell, upper) = near.open();
    let (outer, upper_key, upper_value, inner) = upper.apart(side);
    if outer.height() >= inner.height() {
        let far = Tree::close(cell, Node::of(side, inner, key, value, far));
        return Node::of(side, outer, upper_key, upper_value, far);
    }
    let (inner_cell, middle) = inner.open();
    let (before, middle_key, middle_value, after) = middle.apart(side);
    let near = Tree::close(
        inner_cell,
        Node::of(side, outer, upper_key, upper_value, before),
    );
    let far = Tree::close(cell, Node::of(side, after, key, value, far));
    Node::of(side, near, middle_key, middle_value, far)
}

impl<K, V> Node<K, V> {
    /// A node with these trees on a side and on the other.
    fn of(side: Side, near: Tree<K, V>, key: K, value: V, far: Tree<K, V>) -> Node<K, V>
        ensures entries { node_entries result ≡ on_sides side near.0 (key, value) far.0 }
        ensures height { node_height result ≡ max near.1 far.1 + 1 }
        ensures balanced { DifferByAtMost 1 near.1 far.1 → DifferByAtMost 1 result.left.1 result.right.1 }
    {
        let (left, right) = match side {
            Side::Left => (near, far),
            Side::Right => (far, near),
        };
        Node {
            left,
            key,
            value,
            right,
        }
    }

    /// The parts of a node: the tree on a side, the entry, and the tree on the other.
    fn apart(self, side: Side) -> (Tree<K, V>, K, V, Tree<K, V>)
        ensures entries { node_entries self ≡ on_sides side result.0.0 (result.1, result.2) result.3.0 }
        ensures near { result.0.1 ≡ near_height side self }
        ensures far { result.3.1 ≡ far_height side self }
        ensures height { node_height self ≡ max result.0.1 result.3.1 + 1 }
        ensures balanced { DifferByAtMost 1 self.left.1 self.right.1 → DifferByAtMost 1 result.0.1 result.3.1 }
    {
        let Node {
            left,
            key,
            value,
            right,
        } = self;
        match side {
            Side::Left => (left, key, value, right),
            Side::Right => (right, key, value, left),
        }
    }
}
