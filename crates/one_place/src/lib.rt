//! The machine in one place: every federate at one look, and no node between them.
#![tactic(auto)]

mod actor;
mod laws;
mod machine;
mod members;
mod orders;
mod queues;
mod refusal;
mod run;
mod scenario;
mod seat;
mod sending;
mod step;

pub use federation_plan::Plan;
pub use laws::{failure_runs, orders_agree, reference_runs, steps_run};
pub use machine::Machine;
pub use machine_laws::{CallRefusal, FedLog, LogEnd, LogEntry, Logs, Unlawful};
pub use orders::{Outcome, logs_in_order, up_to_failure};
pub use run::reference;
pub use scenario::Scenario;
pub use step::MachineStep;
