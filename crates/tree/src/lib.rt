//! A record store as a digital search tree in nodes that are handed in. Its depth is at most the number of binary
//! digits of a key, plus one, whatever keys come and in whatever order.

#![tactic(auto)]

mod free;
mod head;
mod links;
mod node;
mod order;
mod put;
mod remove;
mod search_tree;
mod span;
mod walk;
mod width;

pub use node::Node;
pub use search_tree::SearchTree;
