//! The walks down the tree. Each looks at one node to a level, and there are no more levels than a key has binary
//! digits, plus one.
ghost use Rattle.std.specs.Prelude.{ℕ, Some};
ghost use Rattle.tree.specs.Feet.{Bottom};
ghost use Rattle.tree.specs.State.{tree_at, Held, Sought};

use crate::links::{Link, Place};
use crate::search_tree::SearchTree;
use crate::span::Span;
use key::Key;

impl<K: Key, V: Copy> SearchTree<K, V> {
    /// The place of the node that holds a key, on the way that the key's own binary digits show; or the link where
    /// that way ends, unless it is the root's.
    pub(crate) fn seek(&self, k: K) -> Result<Place, Option<Link>>
        ensures { Sought K.LIMIT self.now.nodes.items self.now.head (K.number k) result }
    {
        let key = k.to_number();
        let mut at = self.head.root;
        let mut under = None;
        let mut span = Span::of(self.head.width);
        while let Some(i) = at {
            let node = &self.nodes[i as usize];
            if node.key == key {
                return Ok(Place { at: i, under });
            }
            let side = span.side_of(key);
            under = Some(Link { node: i, side });
            at = node.child(side);
            span = span.on(side);
        }
        Err(under)
    }

    /// A node with no child, at or below one that holds a key.
    pub(crate) fn bottom(&self, from: Place) -> Place
        requires { (q : ℕ) × Held K.LIMIT self.now.nodes.items self.now.head q from }
        ensures { Bottom (tree_at self.now.nodes.items self.now.head (Some from.at)) from.under result.at result.under }
    {
        let mut tip = from;
        while let Some((side, at)) = self.nodes[tip.at as usize].some_child() {
            let under = Some(Link { node: tip.at, side });
            tip = Place { at, under };
        }
        tip
    }
}
