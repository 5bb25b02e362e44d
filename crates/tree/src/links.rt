//! The links between nodes, and the writes that set them.
ghost use Rattle.std.specs.Prelude.{◌≡◌, ℕ, ◌<◌, length};
ghost use Rattle.tree.specs.Writes.{Stands, Beside, Relinked, Attached};

use crate::node::Node;

/// Which of a node's two links.
#[derive(Clone, Copy)]
pub(crate) enum Side {
    Left,
    Right,
}

/// A link by the node that it stands in.
#[derive(Clone, Copy)]
pub(crate) struct Link {
    pub(crate) node: u16,
    pub(crate) side: Side,
}

/// A node, and the link that leads to it, unless it is the root's.
#[derive(Clone, Copy)]
pub(crate) struct Place {
    pub(crate) at: u16,
    pub(crate) under: Option<Link>,
}

/// Sets the link, if it is one of a node: the link to the root stands in the head.
pub(crate) fn set_link<V: Copy>(nodes: &mut [Node<V>], under: Option<Link>, to: Option<u16>)
    requires { Stands (length nodes.old) under }
    ensures { Relinked nodes.old nodes.new under to }
{
    if let Some(up) = under {
        nodes[up.node as usize].set_child(up.side, to);
    }
}

/// Writes a childless node at the place, and sets the link to it.
pub(crate) fn attach<V: Copy>(nodes: &mut [Node<V>], new: Place, key: u64, record: V)
    requires at { new.at < length nodes.old }
    requires under { Beside (length nodes.old) new.at new.under }
    ensures { Attached nodes.old nodes.new key «record» new.at new.under }
{
    nodes[new.at as usize] = Node::childless(key, record);
    set_link(nodes, new.under, Some(new.at));
}
