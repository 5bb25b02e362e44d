//! Putting a record at a key.
ghost use Rattle.std.specs.Prelude.{◌≡◌, ℕ, ◌<◌, length, vec_len};
ghost use Rattle.store.specs.Model.{with_entry};
ghost use Rattle.tree.specs.Writes.{Renewed};
ghost use Rattle.tree.specs.State.{Missing, SpareNode, stored};

use crate::free::Spare;
use crate::links::{Link, Place, attach};
use crate::node::Node;
use crate::search_tree::SearchTree;
use key::Key;

/// Gives the node at `i` another record.
pub(crate) fn renew<V: Copy>(nodes: &mut [Node<V>], i: u16, record: V)
    requires { i < length nodes.old }
    ensures { Renewed nodes.old nodes.new i «record» }
{
    nodes[i as usize].record = record;
}

impl<K: Key, V: Copy> SearchTree<K, V> {
    /// Puts a new key into the spare node, below the link that its walk ends with.
    pub(crate) fn put_new(&mut self, spare: Spare, under: Option<Link>, k: K, v: V)
        requires spare { SpareNode self.old.nodes.items self.old.head spare }
        requires missing { Missing K.LIMIT self.old.nodes.items self.old.head (K.number k) under }
        ensures room { vec_len self.new.nodes ≡ vec_len self.old.nodes }
        ensures entries { stored self.new.nodes.items self.new.head ≡ with_entry (stored self.old.nodes.items self.old.head) (K.number k) v }
    {
        let place = Place {
            at: spare.at,
            under,
        };
        attach(&mut self.nodes, place, k.to_number(), v);
        self.head = self.head.grown(spare, under);
    }
}
