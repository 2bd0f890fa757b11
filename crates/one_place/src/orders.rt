// Runs in an order that is given by numbers, and up to a failure.
ghost use Rattle.std.specs.Prelude.{List, ◌≡◌, ◌≤◌, ◌<◌, ◌^◌, ℕ, true, false, length, drop, slice_get, None, IfOk, IfSome, IfNone, OnOk};
ghost use Rattle.hel_lists.specs.Members.{Each};
ghost use Rattle.machine_laws.specs.Moves.{Scripts, is_failed};
ghost use Rattle.interface_names.specs.Limits.{most_federates};
ghost use Rattle.one_place.specs.Reference.{HasReferenceLogs};
ghost use Rattle.one_place.specs.Run.{wires_at, play_of, may_move, AreActors, AreFollowing, Played, Leads};
ghost use Rattle.one_place.specs.Work.{HasLess};
ghost use Rattle.one_place.specs.Orders.{pick, first_number, HasOrderedLogs, HasLogsUpToFailure, IsOrdered, IsUpTo};
ghost use Rattle.one_place.specs.Playing.{movers_at, HasCome};

use crate::actor::{Actor, actors_of};
use crate::run::{begun_machine, may_move, next_to_move, no_hints, turn};
use crate::{Logs, Machine, Plan, Scenario};
use hel_lists::OutOfMemory;
use std::alloc::Global;
use time_state::{Cause, Phase};

/// The logs of scripts whose federates act in an order by numbers: at each turn, of those that may act,
/// by number, the one to which the next number points, counting round and round, and behind the last
/// number the least. Whatever the order, they are the reference logs: docs/RULES.md, Reference run.
pub fn logs_in_order(alloc: Global, scenario: Scenario, order: &[u32]) -> Result<Logs, OutOfMemory>
    ensures ordered { IfOk result (λ logs. HasOrderedLogs scenario.plan scenario.scripts order.now logs.feds) }
    ensures reference { IfOk result (λ logs. HasReferenceLogs scenario.plan scenario.scripts logs.feds) }
{
    let Scenario { plan, scripts } = scenario;
    let mut actors = actors_of(alloc, plan.federates(), scripts)?;
    let mut machine = begun_machine(alloc, plan)?;
    play_in_order(alloc, &mut machine, &mut actors, order)?;
    Ok(machine.into_logs())
}

/// What a run came to.
#[derive(Debug, Drop)]
pub struct Outcome {
    pub plan: Plan,
    pub logs: Logs,
    /// The federate whose failure ended the run.
    pub failed: Option<u16>,
}

/// The reference run up to and with its first failure: the least federate that may act acts, until one
/// has failed or none may act: docs/RULES.md, Reference run.
pub fn up_to_failure(alloc: Global, scenario: Scenario) -> Result<Outcome, OutOfMemory>
    ensures plan { IfOk result (λ run. run.plan ≡ scenario.plan) }
    ensures logs { IfOk result (λ run. HasLogsUpToFailure scenario.plan scenario.scripts run.failed run.logs.feds) }
    ensures reference { IfOk result (λ run. run.failed ≡ None → HasReferenceLogs scenario.plan scenario.scripts run.logs.feds) }
{
    let Scenario { plan, scripts } = scenario;
    let mut actors = actors_of(alloc, plan.federates(), scripts)?;
    let mut machine = begun_machine(alloc, plan)?;
    let failed = play_up_to_failure(alloc, &mut machine, &mut actors)?;
    let (plan, logs) = machine.into_parts();
    Ok(Outcome { plan, logs, failed })
}

// How many federates may act.
fn count_movers(machine: &Machine) -> usize
    requires { length machine.now.state.members < 2 ^ 16 }
    ensures { result ≡ length (movers_at machine.now) }
{
    let mut count = 0;
    for f in 0..machine.count() {
        if may_move(machine, f as u16, &mut 0) {
            count += 1;
        }
    }
    count
}

// Of those that may act the one at a place.
fn mover_at(machine: &Machine, place: usize) -> Option<u16>
    requires { length machine.now.state.members < 2 ^ 16 }
    ensures { result ≡ slice_get (movers_at machine.now) place }
{
    let mut left = place;
    for f in 0..machine.count() {
        if may_move(machine, f as u16, &mut 0) {
            if left == 0 {
                return Some(f as u16);
            }
            left -= 1;
        }
    }
    None
}

// The one to which a number points.
fn picked(machine: &Machine, number: u32) -> Option<u16>
    requires { length machine.now.state.members < 2 ^ 16 }
    ensures { result ≡ pick number (movers_at machine.now) }
{
    match count_movers(machine) {
        0 => None,
        count => mover_at(machine, number as usize % count),
    }
}

// The first number of an order, and 0 behind its last.
fn first_number(order: &[u32]) -> u32
    ensures { result ≡ first_number order.now }
{
    order.first().copied().unwrap_or(0)
}

// The numbers behind the first.
fn behind_first(order: &[u32]) -> &[u32]
    ensures { result.now ≡ drop 1 order.now }
{
    match order {
        [_, rest @ ..] => rest,
        [] => order,
    }
}

// The federates act in this order until one does more than to answer a letter. Whether one did, and the
// numbers that are left; else none may act.
fn order_on<'a>(
    alloc: Global,
    machine: &mut Machine,
    actors: &mut [Actor],
    order: &'a [u32],
) -> Result<(bool, &'a [u32]), OutOfMemory>
    requires few { length machine.old.state.members ≤ most_federates }
    requires actors { AreActors machine.old.state actors.old }
    ensures on { IfOk result (λ r. Leads (IsOrdered order.now) (IsOrdered r.1.now) machine.old actors.old machine.new actors.new) }
    ensures less { IfOk result (λ r. r.0 ≡ true → HasLess machine.old actors.old machine.new actors.new) }
    ensures still { IfOk result (λ r. r.0 ≡ false → (f : ℕ) → may_move machine.new f ≡ false) }
{
    let mut left = order;
    while let Some(f) = picked(machine, first_number(left)) {
        let answered = turn(alloc, machine, actors, f)?;
        left = behind_first(left);
        if !answered {
            return Ok((true, left));
        }
    }
    Ok((false, left))
}

// The federates act in this order until none may.
fn play_in_order(
    alloc: Global,
    machine: &mut Machine,
    actors: &mut [Actor],
    order: &[u32],
) -> Result<(), OutOfMemory>
    requires few { length machine.old.state.members ≤ most_federates }
    requires actors { AreActors machine.old.state actors.old }
    ensures { OnOk result ((plays : Scripts) (calls : List ℕ) → AreFollowing plays machine.old calls actors.old →
        (end : List ℕ) × Played (IsOrdered order.now) (wires_at machine.old) plays (play_of machine.old calls) (play_of machine.new end)) }
{
    let mut left = order;
    let mut goes_on = true;
    while goes_on {
        (goes_on, left) = order_on(alloc, machine, actors, left)?;
    }
    Ok(())
}

// A federate that has failed.
fn is_failed(phase: Phase) -> bool
    ensures { result ≡ is_failed phase }
{
    matches!(phase, Phase::Ended(Cause::Failed))
}

// Where a run up to a failure has come to.
enum Going {
    // A federate did more than to answer a letter, and none failed.
    On,
    // None may act.
    Still,
    Failed(u16),
}

// The federates act, always the least that may, until one has failed or does more than to answer a
// letter, or none may.
fn failure_on(
    alloc: Global,
    machine: &mut Machine,
    actors: &mut [Actor],
    hints: &mut [usize],
) -> Result<Going, OutOfMemory>
    requires few { length machine.old.state.members ≤ most_federates }
    requires actors { AreActors machine.old.state actors.old }
    ensures plan { OnOk result (machine.new.plan ≡ machine.old.plan) }
    ensures come { IfOk result (HasCome machine.old actors.old machine.new actors.new) }
{
    while let Some(f) = next_to_move(machine, hints) {
        let answered = turn(alloc, machine, actors, f)?;
        if is_failed(machine.phase(f)) {
            return Ok(Going::Failed(f));
        }
        if !answered {
            return Ok(Going::On);
        }
    }
    Ok(Going::Still)
}

// The federates act, always the least that may, until one has failed or none may.
fn play_up_to_failure(
    alloc: Global,
    machine: &mut Machine,
    actors: &mut [Actor],
) -> Result<Option<u16>, OutOfMemory>
    requires few { length machine.old.state.members ≤ most_federates }
    requires actors { AreActors machine.old.state actors.old }
    ensures plan { OnOk result (machine.new.plan ≡ machine.old.plan) }
    ensures logs { IfOk result (λ failed. (plays : Scripts) (calls : List ℕ) → AreFollowing plays machine.old calls actors.old →
        (end : List ℕ) × Played (IsUpTo failed) (wires_at machine.old) plays (play_of machine.old calls) (play_of machine.new end)) }
{
    let mut hints = no_hints(alloc, machine)?;
    loop {
        match failure_on(alloc, machine, actors, &mut hints)? {
            Going::On => {}
            Going::Still => return Ok(None),
            Going::Failed(f) => return Ok(Some(f)),
        }
    }
}
