//! The machine in one place as definitions, and laws of all its runs.
#![tactic(auto)]

mod laws;
mod logs;
mod refusal;

pub use laws::{
    diamond, early_names_the_least, first_laws, grants_on_grid, handed_at_first_reaching,
    items_add_up, items_from_calls, moves_run, nothing_late, one_answer, one_end, orders_end,
    pair_runs, reference_logs, runs_keep, some_grant, stops_at_failure, stuck_waits,
};
pub use logs::{FedLog, LogEnd, LogEntry, Logs};
pub use refusal::{CallRefusal, Unlawful};
