//! What is known of the nodes as a whole.
ghost use Rattle.std.specs.Prelude.{◌≡◌, ℕ, ◌<◌, ◌≤◌};
ghost use Rattle.tree.specs.Heads.{blank, rooted_at, with_spare, without_tip};

use crate::free::Spare;
use crate::links::{Link, Place};
use crate::width::Width;

/// Where the tree and the list of freed nodes begin, the place from which on no node was ever used, how many nodes
/// hold a record, and how many binary digits a key has.
// Places and counts in memory that was handed in: a store never allocates.
#[derive(Clone, Copy)]
pub(crate) struct Head {
    pub(crate) root: Option<u16>,
    pub(crate) free: Option<u16>,
    pub(crate) fresh: usize,
    pub(crate) count: usize,
    pub(crate) width: Width,
}

impl Head {
    /// The head of a tree without a node. No node is written: what they hold is never read.
    pub(crate) fn empty(width: Width) -> Head
        ensures { result ≡ blank width }
    {
        Head {
            root: None,
            free: None,
            fresh: 0,
            count: 0,
            width,
        }
    }

    /// The place of the root once the link `under` is set to `to`: only the link that stands in no node is the root's.
    fn rooted(self, under: Option<Link>, to: Option<u16>) -> Option<u16>
        ensures { result ≡ rooted_at under to self.root }
    {
        under.map_or(to, |_| self.root)
    }

    /// The head once the spare node holds a new key, to which the link `under` leads.
    pub(crate) fn grown(self, spare: Spare, under: Option<Link>) -> Head
        requires { self.count < 65536 }
        ensures { result ≡ with_spare self spare under }
    {
        Head {
            root: self.rooted(under, Some(spare.at)),
            free: spare.free,
            fresh: spare.fresh,
            count: self.count + 1,
            ..self
        }
    }

    /// The head once the node at the tip is taken out of the tree and freed.
    pub(crate) fn shrunk(self, tip: Place) -> Head
        requires { 1 ≤ self.count }
        ensures { result ≡ without_tip self tip }
    {
        Head {
            root: self.rooted(tip.under, None),
            free: Some(tip.at),
            count: self.count - 1,
            ..self
        }
    }
}
