//! The keys in order: the least key, and the least above a given one.
ghost use Rattle.std.specs.Prelude.{◌≡◌, ℕ, ◌+◌, Some};
ghost use Rattle.store.specs.Model.{first_from};
ghost use Rattle.tree.specs.Tree.{link, Laid};
ghost use Rattle.tree.specs.Order.{lesser, least, node_passed, side_passed};
ghost use Rattle.tree.specs.State.{tree_at, stored};

use crate::links::Side;
use crate::search_tree::SearchTree;
use crate::span::Span;
use key::Key;

/// The lesser of two numbers, of which the first may be missing.
fn lesser_of(best: Option<u64>, key: u64) -> Option<u64>
    ensures { result ≡ lesser best (Some key) }
{
    Some(best.map_or(key, |b| b.min(key)))
}

/// What the walk to the next key has come by: the least greater key on the way, and the last subtree to the right of the
/// way, whose keys are all greater. A greater key met after it is less than that whole subtree, which then drops out.
#[derive(Clone, Copy, Default)]
struct Passed {
    best: Option<u64>,
    aside: Option<u16>,
}

impl Passed {
    /// With a node on the way to `key` that holds the key `met`.
    fn node(self, key: u64, met: u64) -> Passed
        ensures { result ≡ node_passed key met self }
    {
        if key < met {
            Passed {
                best: lesser_of(self.best, met),
                aside: None,
            }
        } else {
            self
        }
    }

    /// With the subtree on the right of a node, where the way goes left.
    fn beside(self, side: Side, right: Option<u16>) -> Passed
        ensures { result ≡ side_passed side right self }
    {
        match side {
            Side::Left => Passed {
                aside: right.or(self.aside),
                ..self
            },
            Side::Right => self,
        }
    }
}

impl<K: Key, V: Copy> SearchTree<K, V> {
    /// The least key at or below the node at `at`, or `best` if that is less. The least is on the way that keeps to the
    /// left, for every key on the left of a node is below every key on its right.
    fn least_from(&self, mut at: Option<u16>, mut best: Option<u64>) -> Option<u64>
        requires link { at ≡ link (tree_at self.now.nodes.items self.now.head at) }
        requires tree { Laid self.now.nodes.items (tree_at self.now.nodes.items self.now.head at) }
        ensures { result ≡ lesser best (least (tree_at self.now.nodes.items self.now.head at)) }
    {
        while let Some(i) = at {
            let node = &self.nodes[i as usize];
            best = lesser_of(best, node.key);
            at = node.left.or(node.right);
        }
        best
    }

    /// The least key's number.
    pub(crate) fn least(&self) -> Option<u64>
        ensures { result ≡ first_from (stored self.now.nodes.items self.now.head) 0 }
    {
        self.least_from(self.head.root, None)
    }

    /// The number of the least key above `k`: it stands on the way to `k`, or else below the last link to the right that
    /// the way passed by.
    pub(crate) fn least_above(&self, k: K) -> Option<u64>
        ensures { result ≡ first_from (stored self.now.nodes.items self.now.head) (K.number k + 1) }
    {
        let key = k.to_number();
        let mut at = self.head.root;
        let mut span = Span::of(self.head.width);
        let mut seen = Passed::default();
        while let Some(i) = at {
            let node = &self.nodes[i as usize];
            let side = span.side_of(key);
            seen = seen.node(key, node.key).beside(side, node.right);
            at = node.child(side);
            span = span.on(side);
        }
        self.least_from(seen.aside, seen.best)
    }
}
