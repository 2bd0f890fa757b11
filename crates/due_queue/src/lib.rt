//! Items under way to federates, and their queues in order of due.
#![tactic(auto)]

mod item;
mod laws;
mod queue;

pub use item::{Content, Item, Message};
pub use laws::{canonical_laws, queue_laws};
pub use queue::DueQueue;

#[cfg(test)]
mod tests;
