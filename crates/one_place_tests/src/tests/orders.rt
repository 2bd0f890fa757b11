// Federations whose federates act in other orders than that of the reference run.
use super::messages::{filter, is_message, payload};
use super::plans::{endpoint, enter, nameless, plan_of_all, publication, subscription};
use super::runs::{Say, Speech, run, run_in_order, scenario_over};
use super::steps::ends_so;
use super::values::{Handed, grant_at, is_handed};
use due_queue::Item;
use hel_values::{EndRef, ValueKind};
use interface_names::{FederateRecord, FilterKind, Registry};
use one_place::{FedLog, LogEntry, Logs, Plan, Scenario};
use std::alloc::Global;
use std::process::Abort;
use std::test::Fail;

// A federate: its name, a publication, what its input targets, an endpoint, and the endpoint on whose
// messages its filter with a delay of five seconds stands.
type Member = (
    &'static str,
    Option<&'static str>,
    Option<&'static str>,
    Option<&'static str>,
    Option<&'static str>,
);

// What a grant hands over: nothing, a value, or the text that one endpoint sent to another, with its
// sequence number and the micro step of its due.
#[derive(Clone, Copy)]
enum Hear {
    Nothing,
    Number(Handed),
    Letter(u16, u64, EndRef, u64),
}

use Hear::{Letter, Nothing, Number};

// A grant at this time and micro step, and what it hands over.
type Told = (u64, u64, Hear);

// Federates, what they say, and what their logs tell.
type Federation = (
    &'static [Member],
    &'static [Speech],
    &'static [&'static [Told]],
);

const ENTRY: Told = (0, 1, Nothing);

// Five minutes, five seconds later, and ten minutes.
const FIVE: u64 = 300_000_000_000;

const LATER: u64 = 305_000_000_000;

const TEN: u64 = 600_000_000_000;

const READING: &str = "120 MW";

const METER: EndRef = EndRef { fed: 0, index: 0 };

const INBOX: EndRef = EndRef { fed: 2, index: 0 };

// A grid, a market that makes a price of its load, and a controller that sends readings back.
const MARKET: Federation = (
    &[
        (
            "grid",
            Some("load"),
            None,
            Some("meter"),
            Some("grid/meter"),
        ),
        ("market", Some("price"), Some("grid/load"), None, None),
        (
            "controller",
            None,
            Some("market/price"),
            Some("inbox"),
            None,
        ),
    ],
    &[
        (
            Some(100),
            &[
                Say::Ask(FIVE),
                Say::Publish(120),
                Say::Send("controller/inbox", READING),
                Say::Ask(TEN),
                Say::Ask(TEN),
            ],
        ),
        (Some(30), &[Say::Ask(TEN), Say::Add(-70), Say::Ask(TEN)]),
        (
            None,
            &[Say::Ask(TEN), Say::Ask(TEN), Say::Echo, Say::Ask(TEN)],
        ),
    ],
    &[
        &[
            ENTRY,
            (FIVE, 0, Nothing),
            (LATER, 1, Letter(2, 0, METER, 1)),
            (TEN, 0, Nothing),
        ],
        &[
            (0, 1, Number((0, 0, 0, 100, (0, 1)))),
            (FIVE, 1, Number((0, 1, 0, 120, (FIVE, 1)))),
            (TEN, 0, Nothing),
        ],
        &[
            (0, 1, Number((1, 0, 0, 30, (0, 1)))),
            (FIVE, 2, Number((1, 1, 0, 50, (FIVE, 2)))),
            (LATER, 0, Letter(0, 2, INBOX, 0)),
            (TEN, 0, Nothing),
        ],
    ],
);

// A market and a load that answer each other in micro steps.
const ITERATION: Federation = (
    &[
        ("market", Some("price"), Some("load/demand"), None, None),
        ("load", Some("demand"), Some("market/price"), None, None),
    ],
    &[
        (
            None,
            &[
                Say::Ask(FIVE),
                Say::Publish(30),
                Say::IfNeeded(TEN),
                Say::Publish(28),
                Say::IfNeeded(TEN),
            ],
        ),
        (
            None,
            &[
                Say::Ask(FIVE),
                Say::IfNeeded(TEN),
                Say::Publish(7),
                Say::IfNeeded(TEN),
                Say::IfNeeded(TEN),
            ],
        ),
    ],
    &[
        &[
            ENTRY,
            (FIVE, 0, Nothing),
            (FIVE, 2, Number((1, 0, 0, 7, (FIVE, 2)))),
            (TEN, 0, Nothing),
        ],
        &[
            ENTRY,
            (FIVE, 0, Nothing),
            (FIVE, 1, Number((0, 0, 0, 30, (FIVE, 1)))),
            (FIVE, 3, Number((0, 1, 0, 28, (FIVE, 3)))),
            (TEN, 0, Nothing),
        ],
    ],
);

const NEXT_IN_RING: Speech = (
    None,
    &[
        Say::Ask(20),
        Say::Add(1),
        Say::Ask(20),
        Say::Add(1),
        Say::Ask(20),
    ],
);

// Three federates, of which each adds 1 to what it hears of the one before.
const RING: Federation = (
    &[
        ("A", Some("x"), Some("C/z"), None, None),
        ("B", Some("y"), Some("A/x"), None, None),
        ("C", Some("z"), Some("B/y"), None, None),
    ],
    &[
        (
            None,
            &[
                Say::Ask(10),
                Say::Publish(1),
                Say::Ask(20),
                Say::Add(1),
                Say::Ask(20),
            ],
        ),
        NEXT_IN_RING,
        NEXT_IN_RING,
    ],
    &[
        &[
            ENTRY,
            (10, 0, Nothing),
            (11, 0, Number((2, 0, 0, 3, (10, 3)))),
            (12, 0, Number((2, 1, 0, 6, (11, 3)))),
        ],
        &[
            ENTRY,
            (10, 1, Number((0, 0, 0, 1, (10, 1)))),
            (11, 1, Number((0, 1, 0, 4, (11, 1)))),
            (20, 0, Nothing),
        ],
        &[
            ENTRY,
            (10, 2, Number((1, 0, 0, 2, (10, 2)))),
            (11, 2, Number((1, 1, 0, 5, (11, 2)))),
            (20, 0, Nothing),
        ],
    ],
);

fn federate_of(alloc: Global, member: &Member) -> Result<FederateRecord, Fail> {
    let (name, published, heard, end, delayed) = *member;
    let mut federate = nameless(alloc, name)?;
    if let Some(name) = published {
        let publication = publication(alloc, name, ValueKind::Int)?;
        federate.publications.push(publication)?;
    }
    if let Some(target) = heard {
        federate.inputs.push(subscription(alloc, target)?)?;
    }
    if let Some(name) = end {
        federate.endpoints.push(endpoint(alloc, name, None)?)?;
    }
    if let Some(on) = delayed {
        let network = filter(alloc, on, FilterKind::Delay(5_000_000_000))?;
        federate.filters.push(network)?;
    }
    Ok(federate)
}

fn plan_of(alloc: Global, members: &[Member]) -> Result<Plan, Fail> {
    let mut registry = Registry::new(alloc);
    for member in members {
        enter(&mut registry, federate_of(alloc, member))?;
    }
    plan_of_all(alloc, &registry)
}

fn scenario_of(alloc: Global, members: &[Member], speeches: &[Speech]) -> Result<Scenario, Fail> {
    scenario_over(alloc, plan_of(alloc, members)?, speeches)
}

// An item to a federate is what is heard at a time.
fn is_heard(
    alloc: Global,
    item: &Item,
    target: usize,
    time: u64,
    hear: Hear,
) -> Result<bool, Fail> {
    match hear {
        Nothing => Ok(false),
        Number(handed) => Ok(is_handed(item, target, &handed)),
        Letter(source, seq, to, micro) => {
            let text = payload(alloc, READING)?;
            Ok(
                item.seq == seq
                    && item.due.micro == micro
                    && is_message(item, source, to, to, time, text),
            )
        }
    }
}

fn hears(
    rt: &impl Abort,
    alloc: Global,
    target: usize,
    entry: &LogEntry,
    hear: Hear,
) -> Result<(), Fail> {
    let count = usize::from(!matches!(hear, Nothing));
    assert_eq!(rt; entry.items.len(), count);
    for item in entry.items.as_slice() {
        let heard = is_heard(alloc, item, target, entry.grant.time, hear)?;
        assert!(rt; heard, "{target} {item:?}");
    }
    Ok(())
}

fn tells(
    rt: &impl Abort,
    alloc: Global,
    target: usize,
    log: &FedLog,
    told: &[Told],
) -> Result<(), Fail> {
    assert_eq!(rt; log.entries.len(), told.len());
    let mut before = None;
    for (entry, (time, micro, hear)) in log.entries.as_slice().iter().zip(told) {
        assert_eq!(rt; entry.grant, grant_at(before, *time, *micro));
        before = Some(*time);
        hears(rt, alloc, target, entry, *hear)?;
    }
    ends_so(rt, alloc, log, "Ended(Finished)")
}

fn tell(rt: &impl Abort, alloc: Global, logs: &Logs, told: &[&[Told]]) -> Result<(), Fail> {
    assert_eq!(rt; logs.feds.len(), told.len());
    for (target, (log, wanted)) in logs.feds.as_slice().iter().zip(told).enumerate() {
        tells(rt, alloc, target, log, wanted)?;
    }
    Ok(())
}

// An order by numbers, from one number on.
fn order_from(alloc: Global, first: u32) -> Result<Vec<u32>, Fail> {
    let mut order = Vec::new(alloc);
    let mut number = first;
    for _ in 0..40 {
        number = number.wrapping_mul(747_796_405).wrapping_add(2_891_336_453);
        order.push(number / 65_536)?;
    }
    Ok(order)
}

// In a hundred orders the logs are these by their derived texts.
fn orders_tell(
    rt: &impl Abort,
    alloc: Global,
    members: &[Member],
    speeches: &[Speech],
    wanted: &str,
) -> Result<(), Fail> {
    for first in 0..100 {
        let order = order_from(alloc, first)?;
        let scenario = scenario_of(alloc, members, speeches)?;
        let logs = run_in_order(alloc, scenario, &order)?;
        let text = format!(in alloc; "{logs:?}")?;
        assert_eq!(rt; text.as_str(), wanted, "{first}");
    }
    Ok(())
}

#[test]
fn all_orders_have_the_reference_logs(rt: HostRuntime) -> Result<(), Fail> {
    for (members, speeches, told) in [MARKET, ITERATION, RING] {
        let scenario = scenario_of(rt.alloc(), members, speeches)?;
        let logs = run(rt.alloc(), scenario)?;
        tell(&rt, rt.alloc(), &logs, told)?;
        let wanted = format!(in rt.alloc(); "{logs:?}")?;
        orders_tell(&rt, rt.alloc(), members, speeches, wanted.as_str())?;
    }
    Ok(())
}
