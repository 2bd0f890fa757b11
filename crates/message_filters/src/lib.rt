//! Filters of messages, and chains of them.
#![tactic(auto)]

mod chain;
mod filter;
#[cfg(test)]
mod tests;

pub use chain::{CHAIN_LIMIT, Chain, ChainFull, Filtered};
pub use filter::{Filter, FilterDelay, PerMillion};
