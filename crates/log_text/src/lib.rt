//! The text of logs, and the text of a plan (docs/FORMATS.md, Log text and Check text).
#![tactic(auto)]

mod check;
mod items;
mod logs;
mod names;

pub use check::check_text;
pub use logs::log_text;
