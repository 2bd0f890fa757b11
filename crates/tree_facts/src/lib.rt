//! Trees of numbered nodes: what an edge cuts, and the way from node to node.
#![tactic(auto)]

mod hops;
mod laws;
#[cfg(test)]
mod tests;

pub use hops::{Hop, is_tree, next_hop};
pub use laws::cut_facts;
