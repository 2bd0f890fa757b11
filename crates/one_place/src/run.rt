// The reference run.
ghost use Rattle.std.specs.Prelude.{List, ◌≡◌, ◌≤◌, ◌<◌, ◌^◌, ℕ, [], zero, true, false, length, replicate, slice_set, None, IfOk, IfSome, IfNone, OnOk};
ghost use Rattle.hel_lists.specs.Members.{Each};
ghost use Rattle.fed_script.specs.Script.{IsCourse};
ghost use Rattle.machine_laws.specs.Refusal.{refusal_word};
ghost use Rattle.machine_laws.specs.Machine.{KeepsTime, member_at, refusal_of, after};
ghost use Rattle.machine_laws.specs.Machine.Step.{fail, grant};
ghost use Rattle.machine_laws.specs.Moves.{Doing, Scripts, step_by, call_by, IsReference, is_calling};
ghost use Rattle.interface_names.specs.Limits.{most_federates};
ghost use Rattle.one_place.specs.Step.{step_of};
ghost use Rattle.one_place.specs.Machine.{refusal_at};
ghost use Rattle.one_place.specs.Reference.{taken_over, plays_of, HasReferenceLogs};
ghost use Rattle.one_place.specs.Run.{wires_at, names_at, play_of, may_move, going, passed, calling_step, entry_in, actor_at, actor_after, step_at, IsNextToMove, IsActor, AreActors, AreFollowing, first_actors, begun_stage, Played, Leads};
ghost use Rattle.one_place.specs.Work.{is_answering, HasLess};

use crate::actor::{Actor, actors_of};
use crate::{CallRefusal, Logs, Machine, MachineStep, Plan, Scenario, Unlawful};
use hel_lists::OutOfMemory;
use hel_values::TextValue;
use std::alloc::Global;
use time_state::Phase;

/// The logs of the reference run: the machine begins, and then the least federate that may act makes
/// its next call, or gets the grant that it waits for, until none may: docs/RULES.md, Reference run.
/// It answers `OutOfMemory` for want of memory alone.
pub fn reference(alloc: Global, scenario: Scenario) -> Result<Logs, OutOfMemory>
    ensures { IfOk result (λ logs. HasReferenceLogs scenario.plan scenario.scripts logs.feds) }
{
    let Scenario { plan, scripts } = scenario;
    let mut actors = actors_of(alloc, plan.federates(), scripts)?;
    let mut machine = begun_machine(alloc, plan)?;
    play_out(alloc, &mut machine, &mut actors)?;
    Ok(machine.into_logs())
}

// The machine of a plan, begun.
pub(crate) fn begun_machine(alloc: Global, plan: Plan) -> Result<Machine, OutOfMemory>
    ensures { IfOk result (λ machine. machine ≡ begun_stage plan) }
{
    let mut machine = Machine::open(alloc, plan)?;
    machine.apply(MachineStep::Begin)?;
    Ok(machine)
}

// The name of a refusal.
fn word_of(refusal: CallRefusal) -> &'static str
    ensures { result.now ≡ refusal_word refusal }
{
    match refusal {
        CallRefusal::Ended(_) => "Ended",
        CallRefusal::WrongPhase(_) => "WrongPhase",
        CallRefusal::NotOwner => "NotOwner",
        CallRefusal::KindMismatch => "KindMismatch",
        CallRefusal::UnknownEndpoint => "UnknownEndpoint",
        CallRefusal::NotATarget => "NotATarget",
        CallRefusal::PastHorizon => "PastHorizon",
        CallRefusal::MicroLimit => "MicroLimit",
        CallRefusal::CountLimit => "CountLimit",
        CallRefusal::OutOfMemory => "OutOfMemory",
    }
}

// The step by which a federate fails whose call is refused: its text is the refusal's name.
#[tactic(auto, using(crate::proofs::Scripts::word_is_short))]
fn failure(alloc: Global, f: u16, refusal: CallRefusal) -> Result<MachineStep, OutOfMemory>
    ensures { IfOk result (λ step. step_of step ≡ fail f (refusal_word refusal)) }
{
    let text = String::from_str(alloc, word_of(refusal))?;
    match TextValue::of(text) {
        Ok(text) => Ok(MachineStep::Fail { fed: f, text }),
        Err(_) => unreachable!(),
    }
}

// Whether a federate may act. The hint is that of `Machine::may_grant`.
pub(crate) fn may_move(machine: &Machine, f: u16, hint: &mut usize) -> bool
    ensures { result ≡ may_move machine.now f }
{
    match machine.phase(f) {
        Phase::Initializing | Phase::Running => true,
        _ => machine.may_grant(f, hint),
    }
}

// For each federate the place of an ancestor that may hold its grant.
pub(crate) fn no_hints(alloc: Global, machine: &Machine) -> Result<Vec<usize>, OutOfMemory>
    ensures { IfOk result (λ hints. hints.items ≡ replicate (length machine.now.state.members) 0) }
{
    Ok(vec![in alloc; 0; machine.count()]?)
}

// Whether a federate may act, with the hints of all.
fn may_move_by(machine: &Machine, f: u16, hints: &mut [usize]) -> bool
    ensures { result ≡ may_move machine.now f }
{
    match hints.get_mut(usize::from(f)) {
        Some(hint) => may_move(machine, f, hint),
        None => may_move(machine, f, &mut 0),
    }
}

// The least federate that may act, with the hints of all.
#[tactic(auto, using(crate::proofs::Scripts::strange_stays))]
pub(crate) fn next_to_move(machine: &Machine, hints: &mut [usize]) -> Option<u16>
    requires { length machine.now.state.members < 2 ^ 16 }
    ensures found { IfSome result (IsNextToMove machine.now) }
    ensures none { IfNone result ((f : ℕ) → may_move machine.now f ≡ false) }
{
    for f in 0..machine.count() {
        if may_move_by(machine, f as u16, hints) {
            return Some(f as u16);
        }
    }
    None
}

// A federate makes the next call of its script, or fails where that is refused.
fn call(alloc: Global, machine: &mut Machine, f: u16, actor: &mut Actor) -> Result<(), OutOfMemory>
    requires calling { is_calling (member_at machine.old.state f).time.phase ≡ true }
    requires rules { IsCourse actor.old.script }
    ensures machine { OnOk result (machine.new ≡ record machine.old { state = after (wires_at machine.old) machine.old.state (calling_step machine.old f actor.old) }) }
    ensures actor { OnOk result (actor.new ≡ passed (member_at machine.old.state f).time.phase actor.old) }
{
    let phase = machine.phase(f);
    let step = actor.next(alloc, f, phase)?;
    let step = or_failure(alloc, machine, f, step)?;
    machine.apply(step)?;
    actor.pass(phase);
    Ok(())
}

// A step, or the failure in its place where the call is refused.
fn or_failure(
    alloc: Global,
    machine: &Machine,
    f: u16,
    step: MachineStep,
) -> Result<MachineStep, OutOfMemory>
    requires calling { is_calling (member_at machine.now.state f).time.phase ≡ true }
    requires step { (doing : Doing) × (step_of step ≡ step_by f doing) }
    requires time { KeepsTime (step_of step) }
    ensures step { IfOk result (λ taken. (doing : Doing) → step_of step ≡ step_by f doing → step_of taken ≡ call_by (wires_at machine.now) f (member_at machine.now.state f) doing) }
    ensures lawful { IfOk result (λ taken. refusal_at machine.now taken ≡ None) }
    ensures time { IfOk result (λ taken. KeepsTime (step_of taken)) }
{
    match machine.refusal(&step) {
        None => Ok(step),
        Some(unlawful) => match unlawful {
            Unlawful::Refused(refusal) => failure(alloc, f, refusal),
            _ => unreachable!(),
        },
    }
}

// A federate gets the grant that it waits for.
fn granted(
    alloc: Global,
    machine: &mut Machine,
    f: u16,
    actor: &mut Actor,
) -> Result<(), OutOfMemory>
    requires lawful { refusal_of (wires_at machine.old) machine.old.state (grant f) ≡ None }
    ensures machine { OnOk result (machine.new ≡ record machine.old { state = after (wires_at machine.old) machine.old.state (grant f) }) }
    ensures actor { OnOk result (actor.new ≡ record actor.old { view = taken_over (names_at machine.old) actor.old.view (entry_in machine.old.state f) }) }
{
    machine.apply(MachineStep::Grant(f))?;
    match machine.entries(f).last() {
        Some(entry) => actor.take_over(alloc, machine, entry),
        None => unreachable!(),
    }
}

// A federate that may act does so. Whether it answered a letter.
pub(crate) fn turn(
    alloc: Global,
    machine: &mut Machine,
    actors: &mut [Actor],
    f: u16,
) -> Result<bool, OutOfMemory>
    requires moves { may_move machine.old f ≡ true }
    requires within { f < length actors.old }
    requires actors { Each IsActor actors.old }
    ensures answered { IfOk result (λ answered. answered ≡ is_answering (member_at machine.old.state f).time.phase (actor_at actors.old f)) }
    ensures machine { OnOk result (machine.new ≡ record machine.old { state = after (wires_at machine.old) machine.old.state (step_at machine.old f (actor_at actors.old f)) }) }
    ensures actors { OnOk result (actors.new ≡ slice_set actors.old f (actor_after machine.old f (actor_at actors.old f))) }
{
    let actor = &mut actors[usize::from(f)];
    let phase = machine.phase(f);
    let answers = actor.is_answering(phase);
    match phase {
        Phase::Initializing | Phase::Running => call(alloc, machine, f, actor)?,
        _ => granted(alloc, machine, f, actor)?,
    }
    Ok(answers)
}

// The federates act, always the least that may, until one does more than to answer a letter. Whether
// one did; else none may act.
fn play_on(
    alloc: Global,
    machine: &mut Machine,
    actors: &mut [Actor],
    hints: &mut [usize],
) -> Result<bool, OutOfMemory>
    requires few { length machine.old.state.members ≤ most_federates }
    requires actors { AreActors machine.old.state actors.old }
    ensures on { OnOk result (Leads IsReference IsReference machine.old actors.old machine.new actors.new) }
    ensures less { IfOk result (λ more. more ≡ true → HasLess machine.old actors.old machine.new actors.new) }
    ensures still { IfOk result (λ more. more ≡ false → (f : ℕ) → may_move machine.new f ≡ false) }
{
    while let Some(f) = next_to_move(machine, hints) {
        if !turn(alloc, machine, actors, f)? {
            return Ok(true);
        }
    }
    Ok(false)
}

// The federates act, always the least that may, until none may.
fn play_out(alloc: Global, machine: &mut Machine, actors: &mut [Actor]) -> Result<(), OutOfMemory>
    requires few { length machine.old.state.members ≤ most_federates }
    requires actors { AreActors machine.old.state actors.old }
    ensures { OnOk result ((plays : Scripts) (calls : List ℕ) → AreFollowing plays machine.old calls actors.old →
        (end : List ℕ) × Played IsReference (wires_at machine.old) plays (play_of machine.old calls) (play_of machine.new end)) }
{
    let mut hints = no_hints(alloc, machine)?;
    while play_on(alloc, machine, actors, &mut hints)? {}
    Ok(())
}
