//! Removing a key. Its node takes the key and the record of a childless node below it, and that node is freed: no
//! other node moves, and the tree keeps both subtrees.
ghost use Rattle.std.specs.Prelude.{ℕ, ◌<◌, length};
ghost use Rattle.tree.specs.Writes.{Stands, Promoted, TakenOut};

use crate::free::release;
use crate::links::{Place, set_link};
use crate::node::Node;

/// Gives the node at `i` the key and the record of the node at `m`.
fn promote<V: Copy>(nodes: &mut [Node<V>], i: u16, m: u16)
    requires { (i < length nodes.old) × (m < length nodes.old) }
    ensures { Promoted nodes.old nodes.new i m }
{
    let low = nodes[m as usize];
    let node = nodes[i as usize];
    nodes[i as usize] = node.with_content_of(low);
}

/// Takes out the key that the node at `i` holds, and the node at the tip: it goes before the freed nodes.
pub(crate) fn take_out<V: Copy>(nodes: &mut [Node<V>], i: u16, tip: Place, free: Option<u16>)
    requires { (i < length nodes.old) × (tip.at < length nodes.old) × Stands (length nodes.old) tip.under }
    ensures { TakenOut nodes.old nodes.new i tip free }
{
    promote(nodes, i, tip.at);
    set_link(nodes, tip.under, None);
    release(nodes, tip.at, free);
}
