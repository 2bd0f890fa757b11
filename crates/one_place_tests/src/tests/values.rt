// Values on their way, by steps of the machine and by scripts.
use super::plans::{Row, plan_of};
use super::runs::{Say, Speech, run, scenario_of};
use super::steps::{asked, ends_so, entered, go, logs};
use due_queue::{Content, Item};
use hel_values::{EndRef, Value, ValueKind};
use helics_time::MAX;
use iteration_rules::Kind;
use one_place::{FedLog, Logs, Machine, MachineStep};
use std::alloc::Global;
use std::process::Abort;
use std::test::Fail;
use time_state::Grant;

pub const INT: &[ValueKind] = &[ValueKind::Int];

// One federate hears what another publishes.
pub const PAIR: [Row; 2] = [(INT, &[]), (&[], &["A/x"])];

// A federate hears itself.
pub const ALONE: [Row; 1] = [(INT, &["A/x"])];

// The first is heard by the second, and that by the third.
const CHAIN: [Row; 3] = [(INT, &[]), (INT, &["A/x"]), (&[], &["B/x"])];

// The first is heard by both inputs of the second, and by the third.
const FAN: [Row; 3] = [(INT, &[]), (&[], &["A/x", "A/x"]), (&[], &["A/x"])];

// A step of a federate. All begin, enter and have their entry before.
#[derive(Clone, Copy)]
enum Do {
    Publish(u16, i64),
    Ask(u16, u32),
    Grant(u16),
}

use Do::{Ask, Grant as Granted, Publish};

// What was handed over: source, sequence number, input and number, and its due.
pub type Handed = (u16, u64, u16, i64, (u64, u64));

// A grant at this time and micro step, and what it hands over.
pub type Told = (u64, u64, &'static [Handed]);

fn step_of(step: Do) -> MachineStep {
    match step {
        Publish(fed, number) => MachineStep::Publish {
            fed,
            publication: 0,
            value: Value::Int(number),
        },
        Ask(fed, time) => asked(fed, u64::from(time)),
        Granted(fed) => MachineStep::Grant(fed),
    }
}

fn take_all(machine: &mut Machine, steps: &[Do]) -> Result<(), Fail> {
    for step in steps {
        go(machine, step_of(*step))?;
    }
    Ok(())
}

fn machine_after(alloc: Global, rows: &[Row], steps: &[Do]) -> Result<Machine, Fail> {
    let mut machine = entered(alloc, plan_of(alloc, rows)?)?;
    take_all(&mut machine, steps)?;
    Ok(machine)
}

pub fn is_handed(item: &Item, target: usize, handed: &Handed) -> bool {
    let (source, seq, input, number, (time, micro)) = *handed;
    let content = Content::Value {
        input,
        publication: EndRef {
            fed: source,
            index: 0,
        },
        value: Value::Int(number),
    };
    item.source == source
        && item.seq == seq
        && usize::from(item.target) == target
        && item.due.time == time
        && item.due.micro == micro
        && item.content == content
}

// A grant at this time and micro step, behind one at another time, or none. It iterates where its time
// is that of the grant before.
pub fn grant_at(before: Option<u64>, time: u64, micro: u64) -> Grant {
    Grant {
        time,
        micro,
        kind: if before == Some(time) {
            Kind::Iterating
        } else {
            Kind::NextStep
        },
    }
}

// An item that was handed over is the wanted one.
fn is_wanted(rt: &impl Abort, item: &Item, target: usize, wanted: &Handed) {
    assert!(rt; is_handed(item, target, wanted), "{target} {wanted:?}");
}

// A grant hands over these.
fn hands_over(rt: &impl Abort, target: usize, items: &[Item], handed: &[Handed]) {
    assert_eq!(rt; items.len(), handed.len(), "{target}");
    for (item, wanted) in items.iter().zip(handed) {
        is_wanted(rt, item, target, wanted);
    }
}

// A log tells this.
fn tells(rt: &impl Abort, target: usize, log: &FedLog, told: &[Told]) {
    assert_eq!(rt; log.entries.len(), told.len(), "{target}");
    let mut before = None;
    for (entry, (time, micro, handed)) in log.entries.as_slice().iter().zip(told) {
        assert_eq!(rt; entry.grant, grant_at(before, *time, *micro));
        before = Some(*time);
        hands_over(rt, target, entry.items.as_slice(), handed);
    }
}

pub fn tell(rt: &impl Abort, logs: &Logs, told: &[&[Told]]) {
    assert_eq!(rt; logs.feds.len(), told.len());
    for (target, (log, wanted)) in logs.feds.as_slice().iter().zip(told).enumerate() {
        tells(rt, target, log, wanted);
    }
}

// A plan, steps of its machine, and what the logs tell then.
type Case = (&'static [Row], &'static [Do], &'static [&'static [Told]]);

pub const ENTRY: Told = (0, 1, &[]);

const CASES: [Case; 5] = [
    // A value that was published at 10 comes to one that asked for 100, and not again.
    (
        &PAIR,
        &[
            Ask(0, 10),
            Ask(1, 100),
            Granted(0),
            Publish(0, 5),
            Ask(0, 200),
            Granted(1),
            Ask(1, 100),
            Granted(1),
        ],
        &[
            &[ENTRY, (10, 0, &[])],
            &[ENTRY, (10, 1, &[(0, 0, 0, 5, (10, 1))]), (100, 0, &[])],
        ],
    ),
    // It doesn't come before its due, and two of one time come in the order of their numbers.
    (
        &PAIR,
        &[
            Ask(0, 10),
            Granted(0),
            Publish(0, 6),
            Publish(0, 5),
            Ask(0, 200),
            Ask(1, 9),
            Granted(1),
            Ask(1, 100),
            Granted(1),
        ],
        &[
            &[ENTRY, (10, 0, &[])],
            &[
                ENTRY,
                (9, 0, &[]),
                (10, 1, &[(0, 0, 0, 6, (10, 1)), (0, 1, 0, 5, (10, 1))]),
            ],
        ],
    ),
    // What a federate publishes at 10 comes to itself at its next time.
    (
        &ALONE,
        &[
            Ask(0, 10),
            Granted(0),
            Publish(0, 3),
            Ask(0, 100),
            Granted(0),
        ],
        &[&[ENTRY, (10, 0, &[]), (11, 0, &[(0, 0, 0, 3, (10, 1))])]],
    ),
    // Each link of a chain is a micro step.
    (
        &CHAIN,
        &[
            Ask(0, 10),
            Ask(1, 50),
            Ask(2, 50),
            Granted(0),
            Publish(0, 7),
            Ask(0, 60),
            Granted(1),
            Publish(1, 8),
            Ask(1, 60),
            Granted(2),
        ],
        &[
            &[ENTRY, (10, 0, &[])],
            &[ENTRY, (10, 1, &[(0, 0, 0, 7, (10, 1))])],
            &[ENTRY, (10, 2, &[(1, 0, 0, 8, (10, 2))])],
        ],
    ),
    // Each input that targets a publication has its item.
    (
        &FAN,
        &[
            Publish(0, 9),
            Ask(0, 60),
            Ask(1, 50),
            Ask(2, 50),
            Granted(1),
            Granted(2),
        ],
        &[
            &[ENTRY],
            &[ENTRY, (1, 0, &[(0, 0, 0, 9, (0, 2)), (0, 0, 1, 9, (0, 2))])],
            &[ENTRY, (1, 0, &[(0, 0, 0, 9, (0, 2))])],
        ],
    ),
];

#[test]
fn values_come_at_their_dues(rt: HostRuntime) -> Result<(), Fail> {
    for (rows, steps, told) in CASES {
        let machine = machine_after(rt.alloc(), rows, steps)?;
        tell(&rt, logs(&machine), told);
    }
    Ok(())
}

// A plan, what its federates say, what their logs tell, and how they end by their derived texts.
type Play = (
    &'static [Row],
    &'static [Speech],
    &'static [&'static [Told]],
    &'static [&'static str],
);

const FINISHED: &str = "Ended(Finished)";

const PLAYS: [Play; 7] = [
    (
        &PAIR,
        &[
            (None, &[Say::Ask(10), Say::Publish(5)]),
            (None, &[Say::Ask(100)]),
        ],
        &[
            &[ENTRY, (10, 0, &[])],
            &[ENTRY, (10, 1, &[(0, 0, 0, 5, (10, 1))])],
        ],
        &[FINISHED, FINISHED],
    ),
    // What is published before the entry comes with the entry.
    (
        &PAIR,
        &[(Some(4), &[]), (None, &[Say::Ask(100)])],
        &[&[ENTRY], &[(0, 1, &[(0, 0, 0, 4, (0, 1))]), (100, 0, &[])]],
        &[FINISHED, FINISHED],
    ),
    (
        &ALONE,
        &[(None, &[Say::Ask(10), Say::Publish(3), Say::Ask(100)])],
        &[&[ENTRY, (10, 0, &[]), (11, 0, &[(0, 0, 0, 3, (10, 1))])]],
        &[FINISHED],
    ),
    // What came in one iteration doesn't come again in the next.
    (
        &ALONE,
        &[(
            None,
            &[
                Say::Ask(10),
                Say::Publish(3),
                Say::Force(10),
                Say::Force(10),
                Say::Ask(100),
            ],
        )],
        &[&[
            ENTRY,
            (10, 0, &[]),
            (10, 1, &[(0, 0, 0, 3, (10, 1))]),
            (10, 2, &[]),
            (100, 0, &[]),
        ]],
        &[FINISHED],
    ),
    // Nothing is asked for past the greatest time.
    (
        &ALONE,
        &[(None, &[Say::AskLast, Say::Ask(1)])],
        &[&[ENTRY, (MAX, 0, &[])]],
        &["FailedText(TextValue { text: \"PastHorizon\" })"],
    ),
    // The second adds 1 to what it hears, and the third adds what it hears to no publication.
    (
        &CHAIN,
        &[
            (None, &[Say::Ask(10), Say::Publish(7)]),
            (None, &[Say::Ask(50), Say::Add(1)]),
            (None, &[Say::Ask(50), Say::Add(1)]),
        ],
        &[
            &[ENTRY, (10, 0, &[])],
            &[ENTRY, (10, 1, &[(0, 0, 0, 7, (10, 1))])],
            &[ENTRY, (10, 2, &[(1, 0, 0, 8, (10, 2))])],
        ],
        &[
            FINISHED,
            FINISHED,
            "FailedText(TextValue { text: \"NotOwner\" })",
        ],
    ),
    (
        &FAN,
        &[
            (None, &[Say::Publish(9), Say::Ask(60)]),
            (None, &[Say::Ask(50)]),
            (None, &[]),
        ],
        &[
            &[ENTRY, (60, 0, &[])],
            &[ENTRY, (1, 0, &[(0, 0, 0, 9, (0, 2)), (0, 0, 1, 9, (0, 2))])],
            &[ENTRY],
        ],
        &[FINISHED, FINISHED, FINISHED],
    ),
];

#[test]
fn scripts_play_their_reference_runs(rt: HostRuntime) -> Result<(), Fail> {
    for (rows, speeches, told, ends) in PLAYS {
        let scenario = scenario_of(rt.alloc(), rows, &[], speeches)?;
        let logs = run(rt.alloc(), scenario)?;
        tell(&rt, &logs, told);
        for (log, end) in logs.feds.as_slice().iter().zip(ends) {
            ends_so(&rt, rt.alloc(), log, end)?;
        }
    }
    Ok(())
}
