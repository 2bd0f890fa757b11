//! What is printed of the files at a path, and how that ends.
ghost use Rattle.std.specs.Prelude.{◌≡◌, ℕ, List, length, IfOk};
ghost use Rattle.hel_lists.specs.Members.{Each};
ghost use Rattle.fed_script.specs.Script.{IsCourse};
ghost use Rattle.command_words.specs.declared.Verb.TheVariants.{Check, Sim};
ghost use Rattle.helics_run.specs.Printing.{ends_live, run_printed, IsTextOf, IsRunOf};
ghost use Rattle.helics_run.specs.Answers.{AnswersBy, CountsFaults};

use crate::failure::Failure;
use crate::line::{STUCK, halted_line};
use crate::status::Status;
use fed_script::Script;
use federation_plan::Plan;
use hel_lists::{Items, OutOfMemory, Text};
use hel_outside::Files;
use log_text::{check_text, log_text};
use one_place::{FedLog, LogEnd, Outcome, Scenario, up_to_failure};
use scenario_reading::{read_scenario, read_setting};
use std::alloc::Global;

/// What is printed, and how the program ends then.
#[derive(Debug, Drop)]
pub struct Printed {
    pub status: Status,
    /// On standard output.
    pub out: Text,
    /// On standard error.
    pub err: Text,
}

/// Of `check FILE`: the plan of what FILE sets up.
pub fn check<F: Files>(alloc: Global, files: &mut F, file: &str) -> Result<Printed, Failure>
    ensures answers { AnswersBy (F.content files.old) Check file.now result }
    ensures faults { CountsFaults result (F.faults files.old) (F.faults files.new) (F.failed_path files.new) }
    ensures same { (p : List ℕ) → F.content files.new p ≡ F.content files.old p }
{
    let setting = read_setting(alloc, files, file)?;
    Ok(plan_printed(alloc, &setting.plan)?)
}

fn plan_printed(alloc: Global, plan: &Plan) -> Result<Printed, OutOfMemory>
    ensures { IfOk result (IsTextOf plan.now) }
{
    Ok(Printed {
        status: Status::Done,
        out: Text::of(check_text(alloc, plan)?),
        err: Text::new(alloc),
    })
}

/// Of `sim FILE`: the logs of the run of what FILE sets up, up to its first failure.
pub fn sim<F: Files>(alloc: Global, files: &mut F, file: &str) -> Result<Printed, Failure>
    ensures answers { AnswersBy (F.content files.old) Sim file.now result }
    ensures faults { CountsFaults result (F.faults files.old) (F.faults files.new) (F.failed_path files.new) }
    ensures same { (p : List ℕ) → F.content files.new p ≡ F.content files.old p }
{
    let scenario = read_scenario(alloc, files, file)?;
    Ok(run_printed(alloc, scenario.plan, scenario.scripts)?)
}

fn run_printed(alloc: Global, plan: Plan, scripts: Items<Script>) -> Result<Printed, OutOfMemory>
    requires each { length scripts ≡ length plan.federates }
    requires rules { Each IsCourse scripts }
    ensures { IfOk result (IsRunOf plan scripts) }
{
    let outcome = up_to_failure(alloc, Scenario { plan, scripts })?;
    Ok(Printed {
        status: status_of(&outcome),
        out: Text::of(log_text(alloc, &outcome.plan, &outcome.logs)?),
        err: error_of(alloc, &outcome)?,
    })
}

// Whether a federate is live at the end of these logs.
fn ends_live(logs: &[FedLog]) -> bool
    ensures { result ≡ ends_live logs.now }
{
    logs.iter().any(|log| matches!(log.end, LogEnd::Open(_)))
}

fn status_of(outcome: &Outcome) -> Status
    ensures { result ≡ (run_printed outcome.now.plan.federates outcome.now.failed outcome.now.logs.feds).status }
{
    match outcome.failed {
        Some(_) => Status::Halted,
        None if ends_live(outcome.logs.feds.as_slice()) => Status::Stuck,
        None => Status::Done,
    }
}

fn error_of(alloc: Global, outcome: &Outcome) -> Result<Text, OutOfMemory>
    ensures { IfOk result (λ err. err ≡ (run_printed outcome.now.plan.federates outcome.now.failed outcome.now.logs.feds).err) }
{
    let logs = outcome.logs.feds.as_slice();
    match outcome.failed {
        Some(f) => halted_line(alloc, outcome.plan.federates(), logs, f),
        None if ends_live(logs) => Text::from_str(alloc, STUCK),
        None => Ok(Text::new(alloc)),
    }
}
