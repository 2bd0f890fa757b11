ghost use Rattle.std.specs.Prelude.{◌≡◌, ◌≤◌};

use due_queue::{Content, Item, Message};
use fed_script::{Action, EndpointNames, Script, View, Word, Words};
use hel_lists::{Copied, Items, OutOfMemory, Text};
use hel_values::{EndRef, Payload, TextValue, Value};
use helics_time::{MAX, Stamp};
use iteration_rules::Mode;
use std::alloc::Global;
use std::process::Abort;
use std::test::Fail;

/// Each endpoint has the name of its federate's number.
struct Numbers;

impl EndpointNames for Numbers {
    ghost use Rattle.std.specs.Prelude.{decimal};
    ghost use Rattle.hel_values.specs.declared.EndRef.{EndRef};

    ghost name_of = { λ names (end : EndRef). decimal end.fed };

    fn name(&self, alloc: Global, endpoint: EndRef) -> Result<Text, OutOfMemory> {
        let text = format!(in alloc; "{}", endpoint.fed)?;
        Ok(Text::of(text))
    }
}

// The actions that a script gives, one after another with no grant between.
fn assert_gives(
    rt: &impl Abort,
    alloc: Global,
    script: &mut Script,
    view: &mut View,
    wants: &[&str],
) -> Result<(), Fail> {
    for want in wants {
        let action = script.next(alloc, view)?.copy(alloc)?;
        assert_eq!(rt; format!(in alloc; "{action:?}")?.as_str(), *want);
        script.advance(view);
    }
    Ok(())
}

fn script_of(alloc: Global, words: Words) -> Script {
    Script::of(Items::new(alloc), words)
}

fn item(seq: u64, content: Content) -> Item {
    Item {
        source: 7,
        seq,
        target: 0,
        due: Stamp { time: 3, micro: 0 },
        content,
    }
}

fn value(input: u16, value: Value) -> Content {
    let publication = EndRef { fed: 7, index: 0 };
    Content::Value {
        input,
        publication,
        value,
    }
}

fn message(alloc: Global, fed: u16, endpoint: u16, byte: u8) -> Result<Content, Fail> {
    let source = EndRef { fed, index: 1 };
    let destination = EndRef {
        fed: 0,
        index: endpoint,
    };
    let payload = Payload::of(vec![in alloc; byte]?).ok().ok_or("payload")?;
    Ok(Content::Message(Message {
        source,
        original_source: source,
        destination,
        original_destination: destination,
        time: 3,
        payload,
    }))
}

// Sums over four inputs, from one next to an end of 64 bits to none at all, and times up to the last.
fn sums_and_times(alloc: Global) -> Result<Words, Fail> {
    let mut words = Words::new(alloc);
    for (input, add) in [(0, 1), (1, -2), (2, 4), (3, -5), (4, 6), (0, -7)] {
        words.push(Word::PublishSum {
            publication: input,
            input,
            add,
        })?;
    }
    words.push(Word::Advance(0))?;
    words.push(Word::Advance(7))?;
    words.push(Word::Advance(8))?;
    words.push(Word::Advance(MAX))?;
    Ok(words)
}

#[test]
fn sums_and_times_stop_at_their_ends(rt: HostRuntime) -> Result<(), Fail> {
    let text = TextValue::of(String::from_str(rt.alloc(), "9")?)
        .ok()
        .ok_or("text")?;
    let items = [
        item(0, value(0, Value::Int(i64::MAX - 1))),
        item(1, value(1, Value::Int(i64::MIN + 1))),
        item(2, value(2, Value::Text(text))),
        item(3, value(0, Value::Int(i64::MAX))),
    ];
    let mut view = View::new(rt.alloc(), 4, 0)?;
    view.take_over(rt.alloc(), &Numbers, MAX - 7, &items)?;
    let mut script = script_of(rt.alloc(), sums_and_times(rt.alloc())?);
    let wants = [
        "Publish { publication: 0, value: Int(9223372036854775807) }",
        "Publish { publication: 1, value: Int(-9223372036854775808) }",
        "Publish { publication: 2, value: Int(4) }",
        "Publish { publication: 3, value: Int(-5) }",
        "Publish { publication: 4, value: Int(6) }",
        "Publish { publication: 0, value: Int(9223372036854775800) }",
        "Request { time: 9223372036854775800, mode: Next }",
        "Request { time: 9223372036854775807, mode: Next }",
        "Request { time: 9223372036854775807, mode: Next }",
        "Request { time: 9223372036854775807, mode: Next }",
        "Finish",
        "Finish",
    ];
    assert_gives(&rt, rt.alloc(), &mut script, &mut view, &wants)
}

// A grant hands over messages, each of a federate for an endpoint, with a byte.
fn grant(alloc: Global, view: &mut View, messages: &[(u16, u16, u8)]) -> Result<(), Fail> {
    let mut items = Vec::new(alloc);
    for (fed, endpoint, byte) in messages {
        items.push(item(0, message(alloc, *fed, *endpoint, *byte)?))?;
    }
    view.take_over(alloc, &Numbers, 3, items.as_slice())?;
    Ok(())
}

fn echoes(alloc: Global) -> Result<Words, Fail> {
    let mut words = Words::new(alloc);
    for endpoint in [1, 2, 0, 1] {
        words.push(Word::Echo(endpoint))?;
    }
    words.push(Word::Iterate {
        time: 5,
        mode: Mode::Force,
    })?;
    words.push(Word::Echo(0))?;
    Ok(words)
}

#[test]
fn an_echo_answers_each_letter(rt: HostRuntime) -> Result<(), Fail> {
    let mut script = script_of(rt.alloc(), echoes(rt.alloc())?);
    let mut view = View::new(rt.alloc(), 0, 2)?;
    let messages = [(4, 0, 10), (5, 1, 11), (6, 0, 12), (7, 2, 13)];
    grant(rt.alloc(), &mut view, &messages)?;
    let answers = [
        "Send { endpoint: 1, destination: Text { text: \"5\" }, payload: Payload { bytes: [11] } }",
        "Send { endpoint: 0, destination: Text { text: \"4\" }, payload: Payload { bytes: [10] } }",
        "Send { endpoint: 0, destination: Text { text: \"6\" }, payload: Payload { bytes: [12] } }",
        "Request { time: 5, mode: Force }",
    ];
    assert_gives(&rt, rt.alloc(), &mut script, &mut view, &answers)?;
    grant(rt.alloc(), &mut view, &[(8, 0, 14)])?;
    let answers = [
        "Send { endpoint: 0, destination: Text { text: \"8\" }, payload: Payload { bytes: [14] } }",
        "Finish",
        "Finish",
    ];
    assert!(rt; script.answers(&view));
    assert_gives(&rt, rt.alloc(), &mut script, &mut view, &answers)?;
    assert!(rt; !script.answers(&view));
    Ok(())
}

// So many repeats round a body, one round another.
fn nested(alloc: Global, depth: u32, times: u32, body: Words) -> Result<Words, Fail> {
    let mut inner = body;
    for _ in 0..depth {
        let mut outer = Words::new(alloc);
        outer.push_repeat(times, inner)?;
        inner = outer;
    }
    Ok(inner)
}

fn one_word(alloc: Global, time: u64) -> Result<Words, Fail>
    requires { time ≤ MAX }
{
    let mut words = Words::new(alloc);
    words.push(Word::Request(time))?;
    Ok(words)
}

// Two times: 1 twice, and 2. Then twice nothing, and 3.
fn repeats(alloc: Global) -> Result<Words, Fail> {
    let mut words = nested(alloc, 1, 2, one_word(alloc, 1)?)?;
    words.push(Word::Request(2))?;
    let mut words = nested(alloc, 1, 2, words)?;
    words.push_repeat(9, Words::new(alloc))?;
    words.push_repeat(0, one_word(alloc, 4)?)?;
    words.push(Word::Request(3))?;
    Ok(words)
}

#[test]
fn repeats_give_their_body_so_often(rt: HostRuntime) -> Result<(), Fail> {
    let words = repeats(rt.alloc())?;
    assert_eq!(rt; words.count(), 7);
    let mut view = View::new(rt.alloc(), 0, 0)?;
    let mut script = script_of(rt.alloc(), words);
    for time in [1, 1, 2, 1, 1, 2, 3] {
        let action = script.next(rt.alloc(), &view)?;
        assert!(rt; matches!(&action, Action::Request { time: given, .. } if *given == time));
        script.advance(&mut view);
    }
    assert_gives(
        &rt,
        rt.alloc(),
        &mut script,
        &mut view,
        &["Finish", "Finish"],
    )
}

// The script of words that are repeated a million times, so many deep, which count so many.
fn million(
    rt: &impl Abort,
    alloc: Global,
    depth: u32,
    body: Words,
    count: u64,
) -> Result<Script, Fail> {
    let words = nested(alloc, depth, 1_000_000, body)?;
    assert_eq!(rt; words.count(), count);
    Ok(script_of(alloc, words))
}

#[test]
fn a_million_times_eight_deep(rt: HostRuntime) -> Result<(), Fail> {
    let mut view = View::new(rt.alloc(), 0, 0)?;
    let mut idle = Words::new(rt.alloc());
    idle.push(Word::Echo(0))?;
    let cases = [
        (8, Words::new(rt.alloc()), 0, "Finish"),
        (1, idle, 1_000_000, "Finish"),
        (
            8,
            one_word(rt.alloc(), 1)?,
            u64::MAX,
            "Request { time: 1, mode: Next }",
        ),
    ];
    for (depth, body, count, want) in cases {
        let mut script = million(&rt, rt.alloc(), depth, body, count)?;
        assert_gives(&rt, rt.alloc(), &mut script, &mut view, &[want, want, want])?;
    }
    Ok(())
}

fn published(number: i64) -> Action
    ensures { result ≡ Action.Publish 2 (Value.Int number) }
{
    Action::Publish {
        publication: 2,
        value: Value::Int(number),
    }
}

#[test]
fn initial_actions_come_one_after_another(rt: HostRuntime) -> Result<(), Fail> {
    let mut initial = Items::new(rt.alloc());
    initial.push(published(5))?;
    initial.push(published(6))?;
    let mut script = Script::of(initial, Words::new(rt.alloc()));
    for number in [5, 6] {
        let action = script.initial(rt.alloc())?.ok_or("initial")?;
        assert!(rt;
            matches!(&action, Action::Publish { publication: 2, value: Value::Int(given) } if *given == number)
        );
        script.advance_initial();
    }
    assert!(rt; script.initial(rt.alloc())?.is_none());
    script.advance_initial();
    Ok(())
}
