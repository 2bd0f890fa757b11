//! Tests of the reading of JSON: a crate of its own, so that a change of them leaves the proofs below as they are.
#![tactic(auto)]

#[cfg(test)]
mod tests;
