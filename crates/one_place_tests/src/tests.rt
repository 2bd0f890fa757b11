mod alone;
mod held;
mod messages;
mod orders;
mod plans;
mod runs;
mod settings;
mod steps;
mod values;

use self::plans::{THREE, plan_of};
use self::steps::{answers, asked, ends_so, go, logs, open, phase};
use hel_lists::Text;
use hel_values::{Payload, TextValue, Value};
use helics_time::{MAX, Stamp};
use one_place::{CallRefusal, FedLog, Logs, Machine, MachineStep, Unlawful};
use std::alloc::Global;
use std::process::Abort;
use std::test::Fail;
use time_state::{Cause, Phase};

// The steps that the tables below speak of, of federate `f`, by their places.
const BEGIN: u8 = 0;

const ENTER: u8 = 1;

const PUBLISH: u8 = 2;

const ASK: u8 = 4;

const GRANT: u8 = 5;

const FINISH: u8 = 6;

const FAIL: u8 = 7;

const DIE: u8 = 8;

const HALT: u8 = 9;

const ASK_LAST: u8 = 13;

const ASK_LATER: u8 = 16;

fn failed(alloc: Global, f: u16) -> Result<MachineStep, Fail> {
    let text = TextValue::of(String::from_str(alloc, "x")?);
    Ok(MachineStep::Fail {
        fed: f,
        text: text.ok().ok_or("text")?,
    })
}

fn sent(alloc: Global, f: u16) -> Result<MachineStep, Fail> {
    let payload = Payload::of(Vec::new(alloc)).ok().ok_or("payload")?;
    Ok(MachineStep::Send {
        fed: f,
        endpoint: 0,
        dest: Text::new(alloc),
        payload,
    })
}

fn published(f: u16, publication: u16, number: i64) -> MachineStep {
    MachineStep::Publish {
        fed: f,
        publication,
        value: Value::Int(number),
    }
}

// A publish of a value of another kind than the publication's.
fn misfit(alloc: Global, f: u16) -> Result<MachineStep, Fail> {
    let text = TextValue::of(String::from_str(alloc, "x")?);
    Ok(MachineStep::Publish {
        fed: f,
        publication: 0,
        value: Value::Text(text.ok().ok_or("text")?),
    })
}

fn step_at(alloc: Global, f: u16, place: u8) -> Result<MachineStep, Fail> {
    match place {
        BEGIN => Ok(MachineStep::Begin),
        ENTER => Ok(MachineStep::Enter(f)),
        PUBLISH => Ok(published(f, 0, 1)),
        3 => sent(alloc, f),
        ASK => Ok(asked(f, 10)),
        GRANT => Ok(MachineStep::Grant(f)),
        FINISH => Ok(MachineStep::Finish(f)),
        FAIL => failed(alloc, f),
        DIE => Ok(MachineStep::Die(f)),
        HALT => Ok(MachineStep::Halt { core: 1, fed: f }),
        10 => Ok(MachineStep::Halt { core: 0, fed: f }),
        11 => Ok(MachineStep::Enter(3)),
        12 => Ok(MachineStep::Halt { core: 1, fed: 3 }),
        14 => Ok(published(f, 1, 1)),
        15 => misfit(alloc, f),
        ASK_LATER => Ok(asked(f, 11)),
        _ => Ok(asked(f, MAX)),
    }
}

fn take_all(alloc: Global, machine: &mut Machine, steps: &[(u16, u8)]) -> Result<(), Fail> {
    for (f, place) in steps {
        go(machine, step_at(alloc, *f, *place)?)?;
    }
    Ok(())
}

// The machine of three federates after these steps.
fn machine_after(alloc: Global, steps: &[(u16, u8)]) -> Result<Machine, Fail> {
    let mut machine = open(alloc, plan_of(alloc, &THREE)?)?;
    take_all(alloc, &mut machine, steps)?;
    Ok(machine)
}

// What a letter of the table means: the step is accepted (-), or refused.
fn meant(letter: u8, phase: Phase) -> Option<Unlawful> {
    match (letter, phase) {
        (b'b', _) => Some(Unlawful::BegunTwice),
        (b's', _) => Some(Unlawful::StrangeNumber),
        (b'w', _) => Some(Unlawful::Refused(CallRefusal::WrongPhase(phase))),
        (b'o', _) => Some(Unlawful::Refused(CallRefusal::NotOwner)),
        (b'k', _) => Some(Unlawful::Refused(CallRefusal::KindMismatch)),
        (b'p', _) => Some(Unlawful::Refused(CallRefusal::PastHorizon)),
        (b'e', Phase::Ended(cause)) => Some(Unlawful::Refused(CallRefusal::Ended(cause))),
        (b'n', _) => Some(Unlawful::NotAsked),
        (b'f', _) => Some(Unlawful::NothingFailed),
        _ => None,
    }
}

// The steps of federate 0 before, its phase, and how each step is answered then.
const ROWS: [(&[(u16, u8)], Phase, &[u8; 16]); 10] = [
    (&[], Phase::Created, b"-wwwwnw--fssswww"),
    (&[(0, BEGIN)], Phase::Initializing, b"b--own---fssswok"),
    (
        &[(0, BEGIN), (0, ENTER)],
        Phase::Entering,
        b"bwwww-w--fssswww",
    ),
    (
        &[(0, BEGIN), (0, ENTER), (0, GRANT)],
        Phase::Running,
        b"bw-o-n---fsss-ok",
    ),
    (
        &[(0, BEGIN), (0, ENTER), (0, GRANT), (0, ASK)],
        Phase::Waiting,
        b"bwwww-w--fssswww",
    ),
    (
        &[
            (0, BEGIN),
            (0, ENTER),
            (0, GRANT),
            (0, ASK_LAST),
            (0, GRANT),
        ],
        Phase::Running,
        b"bwpopn---fssspok",
    ),
    (
        &[(0, BEGIN), (0, FINISH)],
        Phase::Ended(Cause::Finished),
        b"beeeeneeefssseee",
    ),
    (
        &[(0, BEGIN), (0, FAIL)],
        Phase::Ended(Cause::Failed),
        b"beeeeneee-ssseee",
    ),
    (
        &[(0, BEGIN), (0, DIE)],
        Phase::Ended(Cause::Died),
        b"beeeeneee-ssseee",
    ),
    (
        &[(1, DIE), (1, HALT)],
        Phase::Ended(Cause::Halted { fed: 1 }),
        b"-eeeeneeefssseee",
    ),
];

// A step of federate 0 is answered as a letter means, in a phase behind these steps.
fn is_answered(
    rt: &impl Abort,
    alloc: Global,
    steps: &[(u16, u8)],
    stands: Phase,
    place: u8,
    letter: u8,
) -> Result<(), Fail> {
    let step = step_at(alloc, 0, place)?;
    let mut machine = machine_after(alloc, steps)?;
    assert_eq!(rt; phase(&machine, 0), stands);
    answers(rt, alloc, &mut machine, step, meant(letter, stands))
}

fn row_holds(
    rt: &impl Abort,
    alloc: Global,
    steps: &[(u16, u8)],
    stands: Phase,
    letters: &[u8; 16],
) -> Result<(), Fail> {
    for (place, letter) in letters.iter().enumerate() {
        is_answered(rt, alloc, steps, stands, place as u8, *letter)?;
    }
    Ok(())
}

#[test]
fn each_refusal_comes_in_each_phase(rt: HostRuntime) -> Result<(), Fail> {
    for (steps, stands, letters) in ROWS {
        row_holds(&rt, rt.alloc(), steps, stands, letters)?;
    }
    Ok(())
}

// What a letter means of a grant to the second of three federates, which depends on the first: it is given (-),
// early or not asked for.
fn answered(letter: u8) -> Option<Unlawful> {
    let stamp = Stamp { time: 10, micro: 0 };
    match letter {
        b'e' => Some(Unlawful::Early { holder: 0, stamp }),
        b'n' => Some(Unlawful::NotAsked),
        _ => None,
    }
}

// The two ask for 10 and 100.
const ASKED: [(u16, u8); 7] = [
    (0, BEGIN),
    (0, ENTER),
    (1, ENTER),
    (0, GRANT),
    (1, GRANT),
    (0, ASK),
    (1, ASK_LAST),
];

// The first could still send at 10, and does, and then what is sent comes at (10, 1).
const ANSWERED: [(u16, u8, u8); 7] = [
    (1, GRANT, b'e'),
    (0, GRANT, b'-'),
    (0, PUBLISH, b'-'),
    (1, GRANT, b'e'),
    (0, ASK_LATER, b'-'),
    (1, GRANT, b'-'),
    (1, GRANT, b'n'),
];

fn each_answers(
    rt: &impl Abort,
    alloc: Global,
    machine: &mut Machine,
    steps: &[(u16, u8, u8)],
) -> Result<(), Fail> {
    for (f, place, letter) in steps {
        let step = step_at(alloc, *f, *place)?;
        answers(rt, alloc, machine, step, answered(*letter))?;
    }
    Ok(())
}

#[test]
fn a_grant_is_early_while_an_ancestor_holds_it(rt: HostRuntime) -> Result<(), Fail> {
    let mut machine = machine_after(rt.alloc(), &ASKED)?;
    each_answers(&rt, rt.alloc(), &mut machine, &ANSWERED)
}

// A log has so many grants, and ends so by its derived text.
fn stands(
    rt: &impl Abort,
    alloc: Global,
    log: &FedLog,
    grants: usize,
    end: &str,
) -> Result<(), Fail> {
    assert_eq!(rt; log.entries.len(), grants);
    ends_so(rt, alloc, log, end)
}

const ENDING: [(u16, u8); 11] = [
    (0, BEGIN),
    (2, ENTER),
    (0, ENTER),
    (2, GRANT),
    (1, ENTER),
    (2, ASK),
    (0, GRANT),
    (2, GRANT),
    (2, FINISH),
    (1, DIE),
    (1, HALT),
];

// So many grants of each federate, and its end by its derived text.
const ENDS: [(usize, &str); 3] = [
    (1, "Ended(Halted { fed: 1 })"),
    (0, "Ended(Died)"),
    (2, "Ended(Finished)"),
];

fn each_stands(rt: &impl Abort, alloc: Global, logs: &Logs) -> Result<(), Fail> {
    assert_eq!(rt; logs.feds.len(), ENDS.len());
    for (log, (grants, end)) in logs.feds.as_slice().iter().zip(ENDS) {
        stands(rt, alloc, log, grants, end)?;
    }
    Ok(())
}

#[test]
fn logs_end_as_their_federates_stand(rt: HostRuntime) -> Result<(), Fail> {
    let machine = machine_after(rt.alloc(), &ENDING)?;
    each_stands(&rt, rt.alloc(), logs(&machine))
}
