//! The order of reading (docs/FORMATS.md, Order of reading).
ghost use Rattle.std.specs.Prelude.{◌≡◌, ℕ, List, IfOk, IfSome, length};
ghost use Rattle.hel_lists.specs.Members.{Each};
ghost use Rattle.fed_script.specs.Script.{IsCourse};
ghost use Rattle.scenario_reading.specs.Following.{Follows, CountsFaults};
ghost use Rattle.scenario_reading.specs.Fitting.{setting_seen, scenario_seen};
ghost use Rattle.scenario_reading.specs.Reading.{setting_at, scenario_at};

use crate::files::{configs_of, runner_at};
use crate::fitting::{scenario_of, setting_of};
use crate::scene::{Scenario, Setting};
use crate::unread::Unread;
use hel_outside::Files;
use std::alloc::Global;

/// What the runner file at this path and the files of its federates set up, or the first refusal or
/// fault in the order of reading. A federate may have no script.
pub fn read_setting<F: Files>(alloc: Global, files: &mut F, file: &str) -> Result<Setting, Unread>
    ensures follows { Follows setting_seen (F.content files.old) (setting_at file.now) result }
    ensures each { IfOk result (λ s. length s.scripts ≡ length s.plan.federates) }
    ensures rules { IfOk result (λ s. Each (λ script. IfSome script IsCourse) s.scripts) }
    ensures faults { CountsFaults result (F.faults files.old) (F.faults files.new) (F.failed_path files.new) }
    ensures same { (p : List ℕ) → F.content files.new p ≡ F.content files.old p }
{
    let runner = runner_at(alloc, files, file)?;
    let configs = configs_of(alloc, files, file, runner.entries.as_slice())?;
    setting_of(alloc, file, runner, configs)
}

/// The same where each federate is to be played: after all else, the first federate without a script
/// is refused.
pub fn read_scenario<F: Files>(alloc: Global, files: &mut F, file: &str) -> Result<Scenario, Unread>
    ensures follows { Follows scenario_seen (F.content files.old) (scenario_at file.now) result }
    ensures each { IfOk result (λ s. length s.scripts ≡ length s.plan.federates) }
    ensures rules { IfOk result (λ s. Each IsCourse s.scripts) }
    ensures faults { CountsFaults result (F.faults files.old) (F.faults files.new) (F.failed_path files.new) }
    ensures same { (p : List ℕ) → F.content files.new p ≡ F.content files.old p }
{
    let setting = read_setting(alloc, files, file)?;
    scenario_of(alloc, setting)
}
