//! The nodes that hold no record: those freed by a remove, which are used again first, and those never used.
ghost use Rattle.std.specs.Prelude.{ℕ, ◌<◌, length};
ghost use Rattle.tree.specs.State.{Reserved};
ghost use Rattle.tree.specs.Writes.{Released};

use crate::node::Node;
use crate::search_tree::SearchTree;
use key::{Key, Refusal};

/// A node for a new key, and what is left of the freed and of the unused nodes without it.
#[derive(Clone, Copy)]
pub(crate) struct Spare {
    pub(crate) at: u16,
    pub(crate) free: Option<u16>,
    pub(crate) fresh: usize,
}

impl<K: Key, V: Copy> SearchTree<K, V> {
    /// A node that holds no record, unless every node holds one.
    pub(crate) fn reserve(&self) -> Result<Spare, Refusal>
        ensures { Reserved self.now.nodes.items self.now.head result }
    {
        let fresh = self.head.fresh;
        if let Some(at) = self.head.free {
            let free = self.nodes[at as usize].left;
            return Ok(Spare { at, free, fresh });
        }
        if fresh == self.nodes.len() {
            return Err(Refusal::StoreFull);
        }
        Ok(Spare {
            at: fresh as u16,
            free: None,
            fresh: fresh + 1,
        })
    }
}

/// Puts the node at `m` before the freed nodes.
pub(crate) fn release<V: Copy>(nodes: &mut [Node<V>], m: u16, free: Option<u16>)
    requires { m < length nodes.old }
    ensures { Released nodes.old nodes.new m free }
{
    nodes[m as usize].left = free;
}
