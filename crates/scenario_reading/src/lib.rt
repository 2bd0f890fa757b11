//! The order of reading: what a runner file and its federates' files set up, or the first refusal.
#![tactic(auto)]

mod files;
mod fitting;
mod reading;
mod refusal;
mod scene;
mod unread;

pub use reading::{read_scenario, read_setting};
pub use refusal::Refusal;
pub use scene::{Scenario, Setting};
pub use unread::Unread;
