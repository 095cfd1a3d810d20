// A tree taken apart into its entries.
ghost use Rattle.std.specs.Prelude.{◌≡◌, [], ◌++◌, ◌+◌, ◌≤◌, length, IfNone, IfSome, vec_len, vec_capacity};
ghost use Rattle.dk_map.specs.Balance.{node_entries};

use super::{Node, Tree};

impl<K: Drop, V: Drop> Tree<K, V> {
    /// The node at the top, if the tree has any. The cell that held it goes.
    fn into_node(self) -> Option<Node<K, V>>
        ensures none { IfNone result (self.0 ≡ []) }
        ensures some { IfSome result (λ n. self.0 ≡ node_entries n) }
    {
        let Tree { root, height: _ } = self;
        let Some(cell) = root else {
            return None;
        };
        let Some(node) = Box::into_inner(cell) else {
            unreachable!()
        };
        Some(node)
    }

    /// Moves the entries to the end of a list, in order.
    pub(crate) fn move_into(self, out: &mut Vec<(K, V)>)
        requires { vec_len out.old + length self.0 ≤ vec_capacity out.old }
        ensures items { out.new.items ≡ out.old.items ++ self.0 }
        ensures len { vec_len out.new ≡ vec_len out.old + length self.0 }
        ensures capacity { vec_capacity out.new ≡ vec_capacity out.old }
    {
        let Some(node) = self.into_node() else {
            return;
        };
        let Node {
            key,
            left,
            right,
            value,
        } = node;
        left.move_into(out);
        out.push_reserved((key, value));
        right.move_into(out);
    }
}
