// Steps of a machine, by functions that promise nothing: what comes of a step, a test asks for when it runs.
ghost use Rattle.std.specs.Prelude.{◌≡◌, true};
ghost use Rattle.machine_laws.specs.Machine.{KeepsTime};
ghost use Rattle.one_place.specs.Step.{step_of};

use helics_time::MAX;
use iteration_rules::Mode;
use one_place::{FedLog, Logs, Machine, MachineStep, Plan, Unlawful};
use std::alloc::Global;
use std::process::Abort;
use std::test::Fail;
use time_state::Phase;

/// A step by which a federate asks for a time in mode Next.
pub fn asked(fed: u16, time: u64) -> MachineStep {
    MachineStep::Request {
        fed,
        time,
        mode: Mode::Next,
    }
}

pub fn open(alloc: Global, plan: Plan) -> Result<Machine, Fail> {
    Ok(Machine::open(alloc, plan)?)
}

// Whether a step names no time past the greatest.
fn keeps_time(step: &MachineStep) -> bool
    ensures { result ≡ true → KeepsTime (step_of step.now) }
{
    match step {
        MachineStep::Request { time, .. } => *time <= MAX,
        _ => true,
    }
}

/// Why a step is refused. Where it isn't, the machine takes it.
pub fn refusal(machine: &mut Machine, step: MachineStep) -> Result<Option<Unlawful>, Fail> {
    if !keeps_time(&step) {
        return Err(Fail::from("a time past the greatest"));
    }
    Ok(machine.step(step).err())
}

/// The machine takes a step.
pub fn go(machine: &mut Machine, step: MachineStep) -> Result<(), Fail> {
    match refusal(machine, step)? {
        None => Ok(()),
        Some(refusal) => Err(Fail::from(refusal)),
    }
}

// So many federates enter.
fn enter_all(machine: &mut Machine, count: u16) -> Result<(), Fail> {
    for f in 0..count {
        go(machine, MachineStep::Enter(f))?;
    }
    Ok(())
}

// So many federates have their entry.
fn grant_all(machine: &mut Machine, count: u16) -> Result<(), Fail> {
    for f in 0..count {
        go(machine, MachineStep::Grant(f))?;
    }
    Ok(())
}

/// The machine of a plan that has begun.
pub fn begun(alloc: Global, plan: Plan) -> Result<Machine, Fail> {
    let mut machine = open(alloc, plan)?;
    go(&mut machine, MachineStep::Begin)?;
    Ok(machine)
}

/// The machine of a plan whose federates have their entry.
pub fn entered(alloc: Global, plan: Plan) -> Result<Machine, Fail> {
    let count = plan.count();
    let mut machine = begun(alloc, plan)?;
    enter_all(&mut machine, count)?;
    grant_all(&mut machine, count)?;
    Ok(machine)
}

pub fn phase(machine: &Machine, f: u16) -> Phase {
    machine.phase(f)
}

pub fn logs(machine: &Machine) -> &Logs {
    machine.logs()
}

/// All of a machine by its derived text.
pub fn text(alloc: Global, machine: &Machine) -> Result<String, Fail> {
    Ok(format!(in alloc; "{machine:?}")?)
}

/// A step is answered so, and the machine is as it was exactly where the step is refused.
pub fn answers(
    rt: &impl Abort,
    alloc: Global,
    machine: &mut Machine,
    step: MachineStep,
    wanted: Option<Unlawful>,
) -> Result<(), Fail> {
    let before = text(alloc, machine)?;
    let refused = refusal(machine, step)?;
    assert_eq!(rt; refused, wanted, "{before}");
    let after = text(alloc, machine)?;
    let same = after.as_str() == before.as_str();
    assert_eq!(rt; same, refused.is_some(), "{before}");
    Ok(())
}

/// A log ends so by its derived text.
pub fn ends_so(rt: &impl Abort, alloc: Global, log: &FedLog, wanted: &str) -> Result<(), Fail> {
    let end = format!(in alloc; "{:?}", log.end)?;
    assert_eq!(rt; end.as_str(), wanted);
    Ok(())
}
