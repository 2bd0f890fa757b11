//! Runner files: the federates of a run and the tree of its nodes, read whole, or the first refusal.
#![tactic(auto)]

mod counts;
mod entries;
mod names;
mod nodes;
mod paths;
mod reading;
mod refusal;
mod shape;
mod splitting;

pub use paths::{folder_of, joined};
pub use reading::{Entry, Runner, read_runner};
pub use refusal::{RunnerRefusal, TreeCause};
