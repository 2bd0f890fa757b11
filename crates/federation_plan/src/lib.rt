//! The plan of a federation: its tree, its federates, and which of them reach which.
#![tactic(auto)]

mod called;
mod calls;
mod chains;
mod draft;
mod laws;
mod links;
mod names;
mod plan;
mod refusal;
mod tables;
mod tree;
mod waits;

pub use called::{
    endpoint_called, endpoint_name, federate_name, publication_called, publication_name,
};
pub use laws::plan_laws;
pub use plan::Plan;
pub use refusal::PlanRefusal;
pub use tree::{NODE_LIMIT, NodeKind, NodeRow, Tree};
