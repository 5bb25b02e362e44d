//! The search tree: it owns its nodes, and no call adds or moves one.
ghost use Rattle.std.specs.Prelude.{◌≡◌, ℕ, ◌+◌, ◌≤◌, min, List, [], length, vec_len};
ghost use Rattle.tree.specs.Digits.{Digits};
ghost use Rattle.tree.specs.Tree.{Way};
ghost use Rattle.tree.specs.State.{Sound, stored};

use crate::head::Head;
use crate::node::Node;
use crate::width::Width;
use key::Key;
use std::marker::PhantomData;
use store::MOST_ROOM;

pub mod record_store;

/// Records by key, in nodes that were handed in.
#[derive(Drop)]
pub struct SearchTree<K: Key, V> {
    pub(crate) nodes: Vec<Node<V>>,
    pub(crate) head: Head,
    keys: PhantomData<K>,
    ghost sound: { ∥ Sound K.LIMIT nodes.items head ∥₁ },
    ghost counted: { head.count ≡ length (stored nodes.items head) },
}

impl<K: Key, V: Copy> SearchTree<K, V> {
    /// An empty store in the nodes, or in the first 65,536 of them. These are its room, so a put is refused as full
    /// only once every one of them holds a record.
    pub fn over(mut nodes: Vec<Node<V>>) -> SearchTree<K, V>
        ensures room { vec_len result.nodes ≡ min (vec_len nodes) 65536 }
        ensures empty { stored result.nodes.items result.head ≡ [] }
    {
        nodes.truncate(MOST_ROOM);
        SearchTree {
            nodes,
            head: Head::empty(Width::of(K::LIMIT)),
            keys: PhantomData,
        }
    }

    /// How many binary digits a key has. No walk visits more nodes than that, plus one: no way down through the nodes,
    /// left or right at each, is longer, whatever keys came and went.
    pub fn key_digits(&self) -> u8
        ensures digits { Digits K.LIMIT result }
        ensures short { (way : List ℕ) → Way self.now.nodes.items self.now.head.root way → length way ≤ result + 1 }
    {
        self.head.width.bits
    }
}
