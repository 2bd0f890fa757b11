//! Which federates lead to which, along the links between them.
#![tactic(auto)]

mod ancestors;
mod laws;
mod links;
#[cfg(test)]
mod tests;

pub use ancestors::Ancestors;
pub use laws::ancestor_laws;
pub use links::{FEDERATE_LIMIT, Links};
