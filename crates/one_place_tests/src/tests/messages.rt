// Messages on their way, by steps of the machine and by scripts.
ghost use Rattle.std.specs.Prelude.{[], IfOk};
ghost use Rattle.interface_names.specs.Filter.{KeepsBounds};

use super::plans::{endpoint, enter, nameless, plan_of_all, texts};
use super::runs::{Say, Speech, run, scenario_over};
use super::steps::{self, asked, entered, go, logs, open};
use due_queue::{Content, Item, Message};
use hel_lists::{Items, Text};
use hel_values::{EndRef, Payload};
use helics_time::MAX;
use interface_names::{FederateRecord, FilterKind, FilterRecord, Registry};
use one_place::{CallRefusal, LogEntry, Machine, MachineStep, Plan, Unlawful};
use std::alloc::Global;
use std::process::Abort;
use std::test::Fail;
use time_state::{Cause, Phase};

pub fn payload(alloc: Global, text: &str) -> Result<Payload, Fail> {
    let bytes = Vec::from_slice(alloc, text.as_bytes())?;
    Ok(Payload::of(bytes).ok().ok_or("payload")?)
}

fn sent(alloc: Global, fed: u16, endpoint: u16, dest: &str) -> Result<MachineStep, Fail> {
    Ok(MachineStep::Send {
        fed,
        endpoint,
        dest: Text::from_str(alloc, dest)?,
        payload: payload(alloc, "hi")?,
    })
}

// A filter of what an endpoint sends.
pub fn filter(alloc: Global, on: &'static str, kind: FilterKind) -> Result<FilterRecord, Fail>
    requires { KeepsBounds kind [] }
{
    Ok(FilterRecord {
        name: None,
        source_of: texts(alloc, &[on])?,
        destination_of: Items::new(alloc),
        kind,
    })
}

// A federate with an endpoint `e`.
fn federate(
    alloc: Global,
    name: &str,
    default: Option<&'static str>,
) -> Result<FederateRecord, Fail> {
    let mut federate = nameless(alloc, name)?;
    federate.endpoints.push(endpoint(alloc, "e", default)?)?;
    Ok(federate)
}

// Puts a filter on what A sends.
fn put(alloc: Global, a: &mut FederateRecord, kind: FilterKind) -> Result<(), Fail>
    requires { KeepsBounds kind [] }
{
    a.filters.push(filter(alloc, "A/e", kind)?)?;
    Ok(())
}

fn rerouting(alloc: Global) -> Result<FilterKind, Fail>
    ensures { IfOk result (λ kind. KeepsBounds kind []) }
{
    Ok(FilterKind::Reroute(Text::from_str(alloc, "C/e")?))
}

// A with a reroute, a delay and a drop on what it sends.
fn sender(alloc: Global, per_million: u32) -> Result<FederateRecord, Fail> {
    if per_million > 1_000_000 {
        return Err(Fail::from("chance"));
    }
    let drop = FilterKind::Drop {
        per_million,
        seed: 0,
    };
    let mut a = federate(alloc, "A", None)?;
    put(alloc, &mut a, rerouting(alloc)?)?;
    put(alloc, &mut a, FilterKind::Delay(4))?;
    put(alloc, &mut a, drop)?;
    Ok(a)
}

// A, B and C, where filters stand on what A sends.
fn filtered(alloc: Global, per_million: u32) -> Result<Plan, Fail> {
    let mut registry = Registry::new(alloc);
    enter(&mut registry, sender(alloc, per_million))?;
    enter(&mut registry, federate(alloc, "B", None))?;
    enter(&mut registry, federate(alloc, "C", None))?;
    plan_of_all(alloc, &registry)
}

pub fn is_message(
    item: &Item,
    source: u16,
    destination: EndRef,
    to: EndRef,
    time: u64,
    bytes: Payload,
) -> bool {
    let from = EndRef {
        fed: source,
        index: 0,
    };
    let message = Message {
        source: from,
        original_source: from,
        destination,
        original_destination: to,
        time,
        payload: bytes,
    };
    item.source == source && item.due.time == time && item.content == Content::Message(message)
}

const A: EndRef = EndRef { fed: 0, index: 0 };

const B: EndRef = EndRef { fed: 1, index: 0 };

const C: EndRef = EndRef { fed: 2, index: 0 };

// A grant at this time hands over the message that A sent to B, or nothing.
fn told(
    rt: &impl Abort,
    alloc: Global,
    entry: Option<&LogEntry>,
    time: u64,
    kept: bool,
) -> Result<(), Fail> {
    let entry = entry.ok_or("no grant")?;
    assert_eq!(rt; (entry.grant.time, entry.grant.micro), (time, 0));
    assert_eq!(rt; entry.items.len(), usize::from(kept));
    for item in entry.items.as_slice() {
        assert!(rt; is_message(item, 0, C, B, 14, payload(alloc, "hi")?));
    }
    Ok(())
}

// What federates of filtered messages do.
#[derive(Clone, Copy)]
enum Do {
    Ask(u16, u32),
    Grant(u16),
    // A sends to B
    Send,
}

// A sends to B at 10, and C is granted for the first time behind its entry.
const SENDING: [Do; 7] = [
    Do::Ask(0, 10),
    Do::Ask(1, 200),
    Do::Ask(2, 100),
    Do::Grant(0),
    Do::Send,
    Do::Ask(0, 200),
    Do::Grant(2),
];

fn step_of(alloc: Global, step: Do) -> Result<MachineStep, Fail> {
    match step {
        Do::Ask(f, time) => Ok(asked(f, u64::from(time))),
        Do::Grant(f) => Ok(MachineStep::Grant(f)),
        Do::Send => sent(alloc, 0, 0, "B/e"),
    }
}

fn send_all(alloc: Global, machine: &mut Machine) -> Result<(), Fail> {
    for step in SENDING {
        go(machine, step_of(alloc, step)?)?;
    }
    Ok(())
}

fn after_a_send(alloc: Global, per_million: u32) -> Result<Machine, Fail> {
    let mut machine = entered(alloc, filtered(alloc, per_million)?)?;
    send_all(alloc, &mut machine)?;
    Ok(machine)
}

// With this chance of a drop the message comes, or not.
fn passes(rt: &impl Abort, alloc: Global, per_million: u32, kept: bool) -> Result<(), Fail> {
    let machine = after_a_send(alloc, per_million)?;
    let log = logs(&machine).feds.get(2).ok_or("no log")?;
    let time = if kept { 14 } else { 100 };
    told(rt, alloc, log.entries.as_slice().last(), time, kept)
}

#[test]
fn a_message_passes_its_filters(rt: HostRuntime) -> Result<(), Fail> {
    // The chance in millionths, and whether the message comes.
    for (per_million, kept) in [
        (1_000_000, false),
        (0, true),
        (607_535, true),
        (607_536, false),
    ] {
        passes(&rt, rt.alloc(), per_million, kept)?;
    }
    Ok(())
}

fn with_targeted(alloc: Global) -> Result<FederateRecord, Fail> {
    let mut federate = nameless(alloc, "B")?;
    let mut targeted = endpoint(alloc, "e", None)?;
    targeted.targeted = true;
    federate.endpoints.push(targeted)?;
    Ok(federate)
}

// A with no default destination, B with a targeted endpoint that has no target, C with the default
// destination A.
fn callers(alloc: Global) -> Result<Machine, Fail> {
    let mut registry = Registry::new(alloc);
    enter(&mut registry, federate(alloc, "A", None))?;
    enter(&mut registry, with_targeted(alloc))?;
    enter(&mut registry, federate(alloc, "C", Some("A/e")))?;
    open(alloc, plan_of_all(alloc, &registry)?)
}

// A federate sends from an endpoint to a name; the answer.
type Call = (u16, u16, &'static str, Option<CallRefusal>);

// Each call is answered so, and the machine is as it was exactly where the call is refused.
fn answers(
    rt: &impl Abort,
    alloc: Global,
    machine: &mut Machine,
    calls: &[Call],
) -> Result<(), Fail> {
    for (f, endpoint, dest, refusal) in calls {
        let step = sent(alloc, *f, *endpoint, dest)?;
        steps::answers(rt, alloc, machine, step, refusal.map(Unlawful::Refused))?;
    }
    Ok(())
}

const CREATED: [Call; 1] = [(0, 9, "X", Some(CallRefusal::WrongPhase(Phase::Created)))];

const BEGUN: [Call; 6] = [
    (0, 1, "B/e", Some(CallRefusal::NotOwner)),
    (0, 0, "X/e", Some(CallRefusal::UnknownEndpoint)),
    (0, 0, "", Some(CallRefusal::UnknownEndpoint)),
    (1, 0, "A/e", Some(CallRefusal::NotATarget)),
    (0, 0, "B/e", None),
    (2, 0, "", None),
];

const ENDED: [Call; 1] = [(0, 9, "X", Some(CallRefusal::Ended(Cause::Finished)))];

fn finish_all(machine: &mut Machine) -> Result<(), Fail> {
    for f in 0..3 {
        go(machine, MachineStep::Finish(f))?;
    }
    Ok(())
}

// What is sent before the beginning, behind it, and at the end is answered so.
fn each_time_answers(rt: &impl Abort, alloc: Global, machine: &mut Machine) -> Result<(), Fail> {
    answers(rt, alloc, machine, &CREATED)?;
    go(machine, MachineStep::Begin)?;
    answers(rt, alloc, machine, &BEGUN)?;
    finish_all(machine)?;
    answers(rt, alloc, machine, &ENDED)
}

#[test]
fn sends_are_refused_in_order(rt: HostRuntime) -> Result<(), Fail> {
    let mut machine = callers(rt.alloc())?;
    each_time_answers(&rt, rt.alloc(), &mut machine)
}

const AT_THE_HORIZON: [Call; 2] = [
    (0, 1, "A/e", Some(CallRefusal::NotOwner)),
    (0, 0, "A/e", Some(CallRefusal::PastHorizon)),
];

// The plan of one federate with an endpoint.
fn plan_of_one(alloc: Global) -> Result<Plan, Fail> {
    let mut registry = Registry::new(alloc);
    enter(&mut registry, federate(alloc, "A", None))?;
    plan_of_all(alloc, &registry)
}

// The machine of one federate at the greatest time.
fn at_the_horizon(alloc: Global) -> Result<Machine, Fail> {
    let mut machine = entered(alloc, plan_of_one(alloc)?)?;
    go(&mut machine, asked(0, MAX))?;
    go(&mut machine, MachineStep::Grant(0))?;
    Ok(machine)
}

#[test]
fn nothing_is_sent_past_the_horizon(rt: HostRuntime) -> Result<(), Fail> {
    let mut machine = at_the_horizon(rt.alloc())?;
    answers(&rt, rt.alloc(), &mut machine, &AT_THE_HORIZON)
}

// A sends `hi` to B at 50, and B sends it back.
const ECHOING: [Speech; 2] = [
    (None, &[Say::Ask(50), Say::Send("B/e", "hi"), Say::Ask(80)]),
    (None, &[Say::Ask(100), Say::Echo, Say::Ask(100)]),
];

// B with a delay of 10 on what it sends.
fn late(alloc: Global) -> Result<FederateRecord, Fail> {
    let delay = filter(alloc, "B/e", FilterKind::Delay(10))?;
    let mut federate = federate(alloc, "B", None)?;
    federate.filters.push(delay)?;
    Ok(federate)
}

// A, and B on which a delay stands.
fn delayed(alloc: Global) -> Result<Plan, Fail> {
    let mut registry = Registry::new(alloc);
    enter(&mut registry, federate(alloc, "A", None))?;
    enter(&mut registry, late(alloc))?;
    plan_of_all(alloc, &registry)
}

// A grant, and from where to where the message is that it hands over, if it does.
type Heard = ((u64, u64), Option<(u16, EndRef)>);

const HEARD: [&[Heard]; 2] = [
    &[((0, 1), None), ((50, 0), None), ((60, 0), Some((1, A)))],
    &[((0, 1), None), ((50, 1), Some((0, B))), ((100, 0), None)],
];

fn hears(rt: &impl Abort, alloc: Global, entry: &LogEntry, heard: &Heard) -> Result<(), Fail> {
    assert_eq!(rt; (entry.grant.time, entry.grant.micro), heard.0);
    assert_eq!(rt; entry.items.len(), usize::from(heard.1.is_some()));
    for item in entry.items.as_slice() {
        let (source, end) = heard.1.ok_or("nothing")?;
        let bytes = payload(alloc, "hi")?;
        assert!(rt; is_message(item, source, end, end, entry.grant.time, bytes));
    }
    Ok(())
}

#[test]
fn an_echo_answers_its_letter(rt: HostRuntime) -> Result<(), Fail> {
    let scenario = scenario_over(rt.alloc(), delayed(rt.alloc())?, &ECHOING)?;
    let logs = run(rt.alloc(), scenario)?;
    assert_eq!(rt; logs.feds.len(), 2);
    for (log, heard) in logs.feds.as_slice().iter().zip(HEARD) {
        assert_eq!(rt; log.entries.len(), heard.len());
        for (entry, heard) in log.entries.as_slice().iter().zip(heard) {
            hears(&rt, rt.alloc(), entry, heard)?;
        }
    }
    Ok(())
}
