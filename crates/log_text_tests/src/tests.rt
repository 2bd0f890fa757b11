use due_queue::{Content, Item, Message};
use federation_plan::{NodeKind, NodeRow, Plan, Tree};
use hel_lists::{Items, Text};
use hel_values::{EndRef, Payload, TextValue, Value, ValueKind};
use helics_time::{MAX, Settings, Stamp};
use interface_names::{EndRecord, FederateRecord, InputRecord, PubRecord, Registry};
use iteration_rules::Kind;
use log_text::{check_text, log_text};
use machine_laws::{FedLog, LogEnd, LogEntry, Logs};
use std::alloc::Global;
use std::test::Fail;
use time_state::{Cause, Grant, Phase};

// Interfaces by their names, and whether these are global.
type Named = (&'static str, bool);

// Publication 1 and endpoint 1 of A are global. B has local ones alone.
const OF_A: &[Named] = &[("x", false), ("grid", true)];

const OF_B: &[Named] = &[("x", false)];

const A_X: EndRef = EndRef { fed: 0, index: 0 };

const GRID: EndRef = EndRef { fed: 0, index: 1 };

const B_X: EndRef = EndRef { fed: 1, index: 0 };

fn publications(alloc: Global, named: &[Named]) -> Result<Items<PubRecord>, Fail> {
    let mut records = Items::new(alloc);
    for (name, global) in named {
        records.push(PubRecord {
            name: Text::from_str(alloc, name)?,
            global: *global,
            kind: ValueKind::Int,
        })?;
    }
    Ok(records)
}

fn endpoints(alloc: Global, named: &[Named]) -> Result<Items<EndRecord>, Fail> {
    let mut records = Items::new(alloc);
    for (name, global) in named {
        records.push(EndRecord {
            name: Text::from_str(alloc, name)?,
            global: *global,
            targeted: true,
            default_destination: None,
            destination_targets: Items::new(alloc),
            source_targets: Items::new(alloc),
        })?;
    }
    Ok(records)
}

// The inputs of a federate that hears the publication `A/x` or `B/x`, or nothing.
fn inputs(alloc: Global, heard: &str) -> Result<Items<InputRecord>, Fail> {
    let mut records = Items::new(alloc);
    if !heard.is_empty() {
        let mut targets = Items::new(alloc);
        targets.push(Text::from_str(alloc, heard)?)?;
        records.push(InputRecord {
            name: None,
            global: false,
            kind: None,
            targets,
            required: true,
        })?;
    }
    Ok(records)
}

fn federate(
    alloc: Global,
    name: &str,
    named: &[Named],
    heard: &str,
    waits: bool,
) -> Result<FederateRecord, Fail> {
    Ok(FederateRecord {
        name: Text::from_str(alloc, name)?,
        settings: Settings::of(0, 0, 0, 0, 0, false, waits, 50).ok_or("settings")?,
        publications: publications(alloc, named)?,
        inputs: inputs(alloc, heard)?,
        endpoints: endpoints(alloc, named)?,
        filters: Items::new(alloc),
    })
}

fn node(alloc: Global, name: &str, kind: NodeKind) -> Result<NodeRow, Fail> {
    Ok(NodeRow {
        name: Text::from_str(alloc, name)?,
        parent: 0,
        kind,
    })
}

// A root, and the core `hall` for both federates.
fn tree(alloc: Global) -> Result<Tree, Fail> {
    let mut nodes = Items::new(alloc);
    nodes.push(node(alloc, "root", NodeKind::Root)?)?;
    nodes.push(node(alloc, "hall", NodeKind::Core)?)?;
    let mut cores = Items::new(alloc);
    cores.push(1)?;
    cores.push(1)?;
    Ok(Tree { nodes, cores })
}

// A plan of A and of B, which hears A. A may hear B as well, and both may wait for current updates.
fn plan_of(alloc: Global, hears: bool, waits: bool) -> Result<Plan, Fail> {
    let mut registry = Registry::new(alloc);
    let heard = if hears { "B/x" } else { "" };
    registry.add(federate(alloc, "A", OF_A, heard, waits)?)?;
    registry.add(federate(alloc, "B", OF_B, "A/x", waits)?)?;
    let tree = tree(alloc)?;
    if !tree.valid() || tree.cores.len() != registry.len() {
        return Err(Fail::from("tree"));
    }
    Ok(Plan::build(alloc, &registry, tree)?)
}

fn text(alloc: Global, text: &str) -> Result<TextValue, Fail> {
    let held = TextValue::of(String::from_str(alloc, text)?);
    Ok(held.ok().ok_or("text")?)
}

fn bytes(alloc: Global, bytes: &[u8]) -> Result<Payload, Fail> {
    let held = Payload::of(Vec::from_slice(alloc, bytes)?);
    Ok(held.ok().ok_or("bytes")?)
}

// What an item hands over: a value of a publication, or a message from one endpoint, sent to
// another, with the time of its due.
#[derive(Clone, Copy)]
enum Told {
    Int(EndRef, i64),
    Text(EndRef, &'static str),
    Bytes(EndRef, &'static [u8]),
    Message(EndRef, EndRef, u64, &'static [u8]),
}

fn value(publication: EndRef, value: Value) -> Content {
    Content::Value {
        input: 3,
        publication,
        value,
    }
}

// A message that another endpoint sent on, and that came elsewhere than it was sent to.
fn message(from: EndRef, to: EndRef, time: u64, payload: Payload) -> Content {
    Content::Message(Message {
        source: B_X,
        original_source: from,
        destination: EndRef { fed: 1, index: 7 },
        original_destination: to,
        time,
        payload,
    })
}

fn content(alloc: Global, told: Told) -> Result<Content, Fail> {
    match told {
        Told::Int(publication, number) => Ok(value(publication, Value::Int(number))),
        Told::Text(publication, said) => Ok(value(publication, Value::Text(text(alloc, said)?))),
        Told::Bytes(publication, said) => Ok(value(publication, Value::Bytes(bytes(alloc, said)?))),
        Told::Message(from, to, time, said) => Ok(message(from, to, time, bytes(alloc, said)?)),
    }
}

fn item(alloc: Global, told: Told) -> Result<Item, Fail> {
    Ok(Item {
        source: 0,
        seq: 0,
        target: 1,
        due: Stamp { time: 10, micro: 1 },
        content: content(alloc, told)?,
    })
}

fn items(alloc: Global, told: &[Told]) -> Result<Items<Item>, Fail> {
    let mut items = Items::new(alloc);
    for told in told {
        items.push(item(alloc, *told)?)?;
    }
    Ok(items)
}

// The log of a federate that was granted (10, 2) and so was handed these.
fn log_of(alloc: Global, told: &[Told], end: LogEnd) -> Result<FedLog, Fail> {
    let grant = Grant {
        time: 10,
        micro: 2,
        kind: Kind::Iterating,
    };
    let items = items(alloc, told)?;
    let mut entries = Items::new(alloc);
    entries.push(LogEntry { grant, items })?;
    Ok(FedLog { entries, end })
}

const FINISHED: LogEnd = LogEnd::Ended(Cause::Finished);

// The text of the one log of A.
fn text_of(alloc: Global, told: &[Told], end: LogEnd) -> Result<String, Fail> {
    let plan = plan_of(alloc, false, false)?;
    let mut feds = Items::new(alloc);
    feds.push(log_of(alloc, told, end)?)?;
    Ok(log_text(alloc, &plan, &Logs { feds })?)
}

const LINES: [(Told, &str); 6] = [
    (Told::Int(A_X, -5), "value 3 from A/x int -5"),
    (
        Told::Text(GRID, "Gr\u{fc}\u{df}e \"\\\n\u{1}\u{7f}"),
        "value 3 from grid text \"Gr\u{fc}\u{df}e \\\"\\\\\\n\\u0001\u{7f}\"",
    ),
    (Told::Bytes(B_X, b""), "value 3 from B/x bytes "),
    (
        Told::Bytes(B_X, b"hi\x00\xff"),
        "value 3 from B/x bytes 686900ff",
    ),
    (
        Told::Message(A_X, GRID, 14, b"hi"),
        "message 7 from A/x for grid at 0.000000014 bytes 6869",
    ),
    (
        Told::Message(GRID, B_X, MAX, b""),
        "message 7 from grid for B/x at 9223372036.854775807 bytes ",
    ),
];

#[test]
fn lines_of_values_and_messages(rt: HostRuntime) -> Result<(), Fail> {
    let alloc = rt.alloc();
    for (told, line) in LINES {
        let text = text_of(alloc, &[told], FINISHED)?;
        let wanted = format!(in alloc;
            "federate 0 A\ngrant 0.000000010 2 iterating\n{line}\nend finished\n"
        )?;
        assert_eq!(rt; text, wanted);
    }
    Ok(())
}

// How a federate stands that didn't fail with a text.
#[derive(Clone, Copy)]
enum Stands {
    Ended(Cause),
    Open(Phase),
}

const ENDS: [(Stands, &str); 7] = [
    (Stands::Ended(Cause::Finished), "end finished"),
    (Stands::Ended(Cause::Died), "end died"),
    (Stands::Ended(Cause::Halted { fed: 1 }), "end halted"),
    (Stands::Open(Phase::Entering), "end waiting"),
    (Stands::Open(Phase::Waiting), "end waiting"),
    (Stands::Open(Phase::Running), "end open"),
    (Stands::Open(Phase::Initializing), "end open"),
];

fn end_of(stands: Stands) -> LogEnd {
    match stands {
        Stands::Ended(cause) => LogEnd::Ended(cause),
        Stands::Open(phase) => LogEnd::Open(phase),
    }
}

fn end_line(alloc: Global, end: LogEnd, line: &str) -> Result<bool, Fail> {
    let told = text_of(alloc, &[], end)?;
    let wanted = format!(in alloc; "federate 0 A\ngrant 0.000000010 2 iterating\n{line}\n")?;
    Ok(told.as_str() == wanted.as_str())
}

#[test]
fn lines_of_ends(rt: HostRuntime) -> Result<(), Fail> {
    let alloc = rt.alloc();
    for (stands, line) in ENDS {
        assert!(rt; end_line(alloc, end_of(stands), line)?, "{line}");
    }
    let failed = LogEnd::FailedText(text(alloc, "no \"fuel\"")?);
    assert!(rt; end_line(alloc, failed, "end failed \"no \\\"fuel\\\"\"")?);
    Ok(())
}

// The logs of A, and of B with an empty grant at the greatest time behind.
fn two_logs(alloc: Global) -> Result<Logs, Fail> {
    let mut feds = Items::new(alloc);
    feds.push(log_of(alloc, &[], FINISHED)?)?;
    let told = [Told::Int(A_X, 4), Told::Message(A_X, B_X, 10, b"ok")];
    let mut log = log_of(alloc, &told, FINISHED)?;
    let grant = Grant {
        time: MAX,
        micro: 0,
        kind: Kind::NextStep,
    };
    let items = Items::new(alloc);
    log.entries.push(LogEntry { grant, items })?;
    feds.push(log)?;
    Ok(Logs { feds })
}

#[test]
fn federates_and_grants_in_order(rt: HostRuntime) -> Result<(), Fail> {
    let alloc = rt.alloc();
    let plan = plan_of(alloc, false, false)?;
    let told = log_text(alloc, &plan, &two_logs(alloc)?)?;
    let wanted = "federate 0 A\n\
        grant 0.000000010 2 iterating\n\
        end finished\n\
        federate 1 B\n\
        grant 0.000000010 2 iterating\n\
        value 3 from A/x int 4\n\
        message 7 from A/x for B/x at 0.000000010 bytes 6f6b\n\
        grant 9223372036.854775807 0 next\n\
        end finished\n";
    assert_eq!(rt; told.as_str(), wanted);
    Ok(())
}

const APART: &str = "federates 2\n\
    nodes 2\n\
    federate 0 A core hall ancestors 0\n\
    federate 1 B core hall ancestors 1\n\
    ok\n";

const AROUND: &str = "federates 2\n\
    nodes 2\n\
    federate 0 A core hall ancestors 1\n\
    federate 1 B core hall ancestors 1\n\
    wait cycle A B\n\
    ok\n";

const UNMARKED: &str = "federates 2\n\
    nodes 2\n\
    federate 0 A core hall ancestors 1\n\
    federate 1 B core hall ancestors 1\n\
    ok\n";

#[test]
fn text_of_a_plan(rt: HostRuntime) -> Result<(), Fail> {
    let alloc = rt.alloc();
    for (hears, waits, wanted) in [
        (false, true, APART),
        (true, true, AROUND),
        (true, false, UNMARKED),
    ] {
        let told = check_text(alloc, &plan_of(alloc, hears, waits)?)?;
        assert_eq!(rt; told.as_str(), wanted);
    }
    Ok(())
}
