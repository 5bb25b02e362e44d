//! A node: the memory that the tree stands in.
ghost use Rattle.std.specs.Prelude.{◌≡◌, None, Some, MatchOption};
ghost use Rattle.tree.specs.Tree.{node_of};
ghost use Rattle.tree.specs.Writes.{child, with_link};

use crate::links::Side;

/// A key's plain number with its record, and the places of the two subtrees. In a free node the left place is that of
/// the next free node.
// Places are numbers and no boxes: a store works in the memory that is handed to it, and never allocates.
#[derive(Clone, Copy)]
pub struct Node<V> {
    pub(crate) key: u64,
    pub(crate) record: V,
    pub(crate) left: Option<u16>,
    pub(crate) right: Option<u16>,
}

impl<V: Copy> Node<V> {
    /// A node to hand in. Its record is never answered: a put writes over it first.
    pub fn spare(record: V) -> Node<V>
        ensures { result ≡ node_of 0 «record» None None }
    {
        Node::childless(0, record)
    }

    /// A node with no subtree.
    pub(crate) fn childless(key: u64, record: V) -> Node<V>
        ensures { result ≡ node_of key «record» None None }
    {
        Node {
            key,
            record,
            left: None,
            right: None,
        }
    }

    /// The node with another's key and record in place of its own.
    pub(crate) fn with_content_of(self, other: Node<V>) -> Node<V>
        ensures { result ≡ node_of other.key other.«record» self.left self.right }
    {
        Node {
            key: other.key,
            record: other.record,
            ..self
        }
    }

    /// The place of the subtree on a side.
    pub(crate) fn child(&self, side: Side) -> Option<u16>
        ensures { result ≡ child side self.now }
    {
        match side {
            Side::Left => self.left,
            Side::Right => self.right,
        }
    }

    /// A subtree, if there is one, with its side.
    pub(crate) fn some_child(&self) -> Option<(Side, u16)>
        ensures { MatchOption result ((self.now.left ≡ None) × (self.now.right ≡ None))
            (λ c. child c.0 self.now ≡ Some c.1) }
    {
        let left = self.left.map(|at| (Side::Left, at));
        left.or(self.right.map(|at| (Side::Right, at)))
    }

    pub(crate) fn set_child(&mut self, side: Side, to: Option<u16>)
        ensures { self.new ≡ with_link side to self.old }
    {
        match side {
            Side::Left => self.left = to,
            Side::Right => self.right = to,
        }
    }
}
