// Steps that are refused: of strange numbers, and grants that an ancestor holds.
use super::plans::{Row, THREE, plan_of};
use super::steps::{answers, asked, begun, go, logs, phase};
use super::{BEGIN, machine_after, step_at};
use hel_values::ValueKind;
use helics_time::Stamp;
use one_place::{Machine, MachineStep, Unlawful};
use std::alloc::Global;
use std::process::Abort;
use std::test::Fail;
use time_state::Phase;

fn is_strange(rt: &impl Abort, alloc: Global, f: u16, place: u8) -> Result<(), Fail> {
    let mut machine = machine_after(alloc, &[(0, BEGIN)])?;
    let step = step_at(alloc, f, place)?;
    answers(rt, alloc, &mut machine, step, Some(Unlawful::StrangeNumber))
}

// Each kind of step but Begin, of a federate that the plan doesn't have; a Halt of the core that there is, and of none.
#[test]
fn each_step_of_a_strange_number_is_refused(rt: HostRuntime) -> Result<(), Fail> {
    for f in [THREE.len() as u16, u16::MAX] {
        for place in 1..16 {
            is_strange(&rt, rt.alloc(), f, place)?;
        }
    }
    Ok(())
}

const INT: &[ValueKind] = &[ValueKind::Int];

// The last hears the two others, and the first does.
const LAST_HEARS: [Row; 3] = [(INT, &[]), (INT, &[]), (&[], &["A/x", "B/x"])];

const FIRST_HEARS: [Row; 3] = [(&[], &["B/x", "C/x"]), (INT, &[]), (INT, &[])];

// The last hears the second, and that the first.
const CHAIN: [Row; 3] = [(INT, &[]), (INT, &["A/x"]), (&[], &["B/x"])];

#[derive(Clone, Copy)]
enum Do {
    Enter(u16),
    Ask(u16, u32),
    Granted(u16),
}

use Do::{Ask, Enter, Granted};

fn step_of(step: Do) -> MachineStep {
    match step {
        Enter(fed) => MachineStep::Enter(fed),
        Ask(fed, time) => asked(fed, u64::from(time)),
        Granted(fed) => MachineStep::Grant(fed),
    }
}

// A plan, steps behind Begin, the federate that asks, and the ancestor by which its grant is early, with its event.
type Held = (&'static [Row], &'static [Do], u16, u16, (u32, u32));

const HELD: [Held; 7] = [
    // Those who haven't entered could still publish at (0, 0).
    (&LAST_HEARS, &[Enter(2)], 2, 0, (0, 0)),
    (&LAST_HEARS, &[Enter(0), Enter(2)], 2, 1, (0, 0)),
    // The least of two is named, though the other acts before it.
    (
        &LAST_HEARS,
        &[
            Enter(0),
            Enter(1),
            Enter(2),
            Granted(0),
            Granted(1),
            Granted(2),
            Ask(0, 20),
            Ask(1, 10),
            Ask(2, 100),
        ],
        2,
        0,
        (20, 0),
    ),
    (
        &LAST_HEARS,
        &[
            Enter(0),
            Enter(1),
            Enter(2),
            Granted(0),
            Granted(1),
            Granted(2),
            Ask(0, 100),
            Ask(1, 10),
            Ask(2, 100),
        ],
        2,
        1,
        (10, 0),
    ),
    (
        &FIRST_HEARS,
        &[
            Enter(0),
            Enter(1),
            Enter(2),
            Granted(2),
            Granted(1),
            Granted(0),
            Ask(2, 10),
            Ask(1, 20),
            Ask(0, 100),
        ],
        0,
        1,
        (20, 0),
    ),
    (
        &FIRST_HEARS,
        &[
            Enter(0),
            Enter(1),
            Enter(2),
            Granted(2),
            Granted(1),
            Granted(0),
            Ask(1, 20),
            Granted(1),
            Ask(1, 200),
            Ask(0, 100),
        ],
        0,
        2,
        (0, 1),
    ),
    // An ancestor of an ancestor holds it too.
    (
        &CHAIN,
        &[
            Enter(0),
            Enter(1),
            Enter(2),
            Granted(0),
            Granted(1),
            Granted(2),
            Ask(0, 20),
            Ask(1, 10),
            Ask(2, 100),
        ],
        2,
        0,
        (20, 0),
    ),
];

// All logs by their derived text.
fn told(alloc: Global, machine: &Machine) -> Result<String, Fail> {
    Ok(format!(in alloc; "{:?}", logs(machine))?)
}

// The grant is early, and each time that it is tried the machine has the same phases and logs as before.
fn is_held(
    rt: &impl Abort,
    alloc: Global,
    machine: &mut Machine,
    f: u16,
    early: Unlawful,
) -> Result<(), Fail> {
    let stands = phase(machine, f);
    assert!(rt; matches!(stands, Phase::Entering | Phase::Waiting));
    let before = told(alloc, machine)?;
    for _ in 0..2 {
        answers(rt, alloc, machine, MachineStep::Grant(f), Some(early))?;
        assert_eq!(rt; phase(machine, f), stands);
        let after = told(alloc, machine)?;
        assert_eq!(rt; after.as_str(), before.as_str());
    }
    Ok(())
}

fn take_all(machine: &mut Machine, steps: &[Do]) -> Result<(), Fail> {
    for step in steps {
        go(machine, step_of(*step))?;
    }
    Ok(())
}

// The machine of a plan after these steps.
fn machine_of(alloc: Global, rows: &[Row], steps: &[Do]) -> Result<Machine, Fail> {
    let mut machine = begun(alloc, plan_of(alloc, rows)?)?;
    take_all(&mut machine, steps)?;
    Ok(machine)
}

fn ancestor_holds(rt: &impl Abort, alloc: Global, held: &Held) -> Result<(), Fail> {
    let (rows, steps, f, holder, (time, micro)) = *held;
    let stamp = Stamp {
        time: u64::from(time),
        micro: u64::from(micro),
    };
    let mut machine = machine_of(alloc, rows, steps)?;
    is_held(
        rt,
        alloc,
        &mut machine,
        f,
        Unlawful::Early { holder, stamp },
    )
}

#[test]
fn the_least_ancestor_holds_a_grant(rt: HostRuntime) -> Result<(), Fail> {
    for held in HELD {
        ancestor_holds(&rt, rt.alloc(), &held)?;
    }
    Ok(())
}
