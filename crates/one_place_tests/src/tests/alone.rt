// Runs of federates without interfaces, by steps of the machine and by scripts.
use super::plans::{Row, plan_of};
use super::runs::{Say, Speech, run, scenario_of};
use super::steps::{begun, ends_so, go, logs, phase, refusal};
use hel_values::TextValue;
use helics_time::MAX;
use iteration_rules::{Kind, Mode};
use one_place::{CallRefusal, FedLog, Logs, Machine, MachineStep, Unlawful};
use std::alloc::Global;
use std::process::Abort;
use std::test::Fail;
use time_state::{Cause, Grant};

const BARE: Row = (&[], &[]);

use Kind::{Iterating, NextStep};
use Say::{Ask, Finish, Force, Forces, IfNeeded};

// So many grants at this time, from this micro step on.
type Told = (u64, u32, u32, Kind);

const ENTRY: Told = (0, 1, 1, NextStep);

const HORIZON: u64 = 4_611_686_018_427_387_904;

const FINISHED: &str = "Ended(Finished)";

const PAST: &str = "FailedText(TextValue { text: \"PastHorizon\" })";

// What a federate is granted, and how it ends by its derived text.
type End = (&'static [Told], &'static str);

const ONE: &[Row] = &[BARE];

const THREE: &[Row] = &[BARE, BARE, BARE];

// Federates, what they say, and what their logs tell.
const RUNS: [(&[Row], &[Speech], &[End]); 9] = [
    (ONE, &[(None, &[])], &[(&[ENTRY], FINISHED)]),
    // A forced request is granted in the next micro step, whatever time it names, and one for a time that isn't
    // later at the next time.
    (
        ONE,
        &[(None, &[Ask(10), Forces(1, 10), Force(7), Ask(10)])],
        &[(
            &[
                ENTRY,
                (10, 0, 1, NextStep),
                (10, 1, 2, Iterating),
                (11, 0, 1, NextStep),
            ],
            FINISHED,
        )],
    ),
    // Nothing comes for which a request in mode IfNeeded would be granted at the present time.
    (
        ONE,
        &[(None, &[IfNeeded(10), IfNeeded(10), IfNeeded(3)])],
        &[(
            &[
                ENTRY,
                (10, 0, 1, NextStep),
                (11, 0, 1, NextStep),
                (12, 0, 1, NextStep),
            ],
            FINISHED,
        )],
    ),
    // What stands behind a finish isn't taken.
    (
        ONE,
        &[(None, &[Ask(5), Finish, Ask(9), Force(9)])],
        &[(&[ENTRY, (5, 0, 1, NextStep)], FINISHED)],
    ),
    // A federate may finish at the greatest time, and not ask for more.
    (
        ONE,
        &[(None, &[Ask(MAX), Finish, Ask(1)])],
        &[(&[ENTRY, (MAX, 0, 1, NextStep)], FINISHED)],
    ),
    (
        ONE,
        &[(None, &[Ask(MAX), Force(1), Finish])],
        &[(&[ENTRY, (MAX, 0, 1, NextStep)], PAST)],
    ),
    // From the horizon on the greatest time alone is lawful.
    (
        ONE,
        &[(None, &[Ask(HORIZON - 1), Ask(HORIZON), Ask(HORIZON)])],
        &[(
            &[ENTRY, (HORIZON - 1, 0, 1, NextStep), (MAX, 0, 1, NextStep)],
            PAST,
        )],
    ),
    // The 51st forced request is taken in mode Next, and the count begins anew at each later time.
    (
        ONE,
        &[(None, &[Forces(51, 9), Forces(2, 9), Forces(50, 9), Ask(9)])],
        &[(
            &[
                ENTRY,
                (0, 2, 50, Iterating),
                (9, 0, 1, NextStep),
                (9, 1, 50, Iterating),
                (10, 0, 1, NextStep),
                (10, 1, 1, Iterating),
                (11, 0, 1, NextStep),
            ],
            FINISHED,
        )],
    ),
    // None of three waits for another.
    (
        THREE,
        &[
            (None, &[Ask(10), Force(10), Finish, Ask(11)]),
            (None, &[IfNeeded(3), Ask(2)]),
            (None, &[Ask(MAX), Ask(1)]),
        ],
        &[
            (
                &[ENTRY, (10, 0, 1, NextStep), (10, 1, 1, Iterating)],
                FINISHED,
            ),
            (&[ENTRY, (3, 0, 1, NextStep), (4, 0, 1, NextStep)], FINISHED),
            (&[ENTRY, (MAX, 0, 1, NextStep)], PAST),
        ],
    ),
];

// The step that a word stands for, and how often it is taken.
fn step_of(fed: u16, say: Say) -> (MachineStep, u32) {
    let (time, mode, times) = match say {
        Ask(time) => (time, Mode::Next, 1),
        Force(time) => (time, Mode::Force, 1),
        Forces(times, time) => (time, Mode::Force, times),
        IfNeeded(time) => (time, Mode::IfNeeded, 1),
        _ => return (MachineStep::Finish(fed), 1),
    };
    (MachineStep::Request { fed, time, mode }, times)
}

fn past_horizon(alloc: Global, fed: u16) -> Result<MachineStep, Fail> {
    let text = TextValue::of(String::from_str(alloc, "PastHorizon")?);
    Ok(MachineStep::Fail {
        fed,
        text: text.ok().ok_or("text")?,
    })
}

// A federate asks and is granted. It fails where it asks past the greatest time, and once it has ended it is refused.
fn take(alloc: Global, machine: &mut Machine, f: u16, say: Say) -> Result<(), Fail> {
    match refusal(machine, step_of(f, say).0)? {
        None => match say {
            Finish => Ok(()),
            _ => go(machine, MachineStep::Grant(f)),
        },
        Some(Unlawful::Refused(CallRefusal::PastHorizon)) => go(machine, past_horizon(alloc, f)?),
        Some(Unlawful::Refused(CallRefusal::Ended(Cause::Finished | Cause::Failed))) => Ok(()),
        Some(other) => Err(Fail::from(other)),
    }
}

// A federate enters, says its part and finishes, where it hasn't ended by then.
fn play(alloc: Global, machine: &mut Machine, f: u16, says: &[Say]) -> Result<(), Fail> {
    go(machine, MachineStep::Enter(f))?;
    go(machine, MachineStep::Grant(f))?;
    for say in says {
        for _ in 0..step_of(f, *say).1 {
            take(alloc, machine, f, *say)?;
        }
    }
    if phase(machine, f).is_live() {
        go(machine, MachineStep::Finish(f))?;
    }
    Ok(())
}

// Each federate says its part to the end, the last federate first.
fn play_all(alloc: Global, machine: &mut Machine, speeches: &[Speech]) -> Result<(), Fail> {
    for (f, speech) in speeches.iter().enumerate().rev() {
        let f = u16::try_from(f).ok().ok_or("number")?;
        play(alloc, machine, f, speech.1)?;
    }
    Ok(())
}

// The machine once each federate has said its part.
fn played_by_steps(alloc: Global, rows: &[Row], speeches: &[Speech]) -> Result<Machine, Fail> {
    let mut machine = begun(alloc, plan_of(alloc, rows)?)?;
    play_all(alloc, &mut machine, speeches)?;
    Ok(machine)
}

fn grants_of(alloc: Global, told: &[Told]) -> Result<Vec<Grant>, Fail> {
    let mut grants = Vec::new(alloc);
    for (time, first, count, kind) in told {
        for k in 0..*count {
            grants.push(Grant {
                time: *time,
                micro: u64::from(*first) + u64::from(k),
                kind: *kind,
            })?;
        }
    }
    Ok(grants)
}

// A log has these grants, nothing was handed over, and it ends so.
fn tells(rt: &impl Abort, alloc: Global, log: &FedLog, end: &End) -> Result<(), Fail> {
    let grants = grants_of(alloc, end.0)?;
    assert_eq!(rt; log.entries.len(), grants.len());
    for (entry, grant) in log.entries.as_slice().iter().zip(grants.iter()) {
        assert_eq!(rt; entry.grant, *grant);
        assert!(rt; entry.items.is_empty());
    }
    ends_so(rt, alloc, log, end.1)
}

fn tell(rt: &impl Abort, alloc: Global, logs: &Logs, ends: &[End]) -> Result<(), Fail> {
    assert_eq!(rt; logs.feds.len(), ends.len());
    for (log, end) in logs.feds.as_slice().iter().zip(ends) {
        tells(rt, alloc, log, end)?;
    }
    Ok(())
}

// What the logs tell of federates that are stepped.
fn steps_tell(
    rt: &impl Abort,
    alloc: Global,
    rows: &[Row],
    speeches: &[Speech],
    ends: &[End],
) -> Result<(), Fail> {
    let machine = played_by_steps(alloc, rows, speeches)?;
    tell(rt, alloc, logs(&machine), ends)
}

// What the logs tell of their reference run.
fn scripts_tell(
    rt: &impl Abort,
    alloc: Global,
    rows: &[Row],
    speeches: &[Speech],
    ends: &[End],
) -> Result<(), Fail> {
    let scenario = scenario_of(alloc, rows, &[], speeches)?;
    tell(rt, alloc, &run(alloc, scenario)?, ends)
}

#[test]
fn federates_alone_go_on_by_steps_and_by_scripts(rt: HostRuntime) -> Result<(), Fail> {
    for (rows, speeches, ends) in RUNS {
        steps_tell(&rt, rt.alloc(), rows, speeches, ends)?;
        scripts_tell(&rt, rt.alloc(), rows, speeches, ends)?;
    }
    Ok(())
}
