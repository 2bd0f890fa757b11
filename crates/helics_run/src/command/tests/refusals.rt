use super::{ALONE, Call, FEDERATE, PAIR, expect_of};
use crate::status::Status;
use std::alloc::{AllocError, Global};
use std::fmt::Write;
use std::process::Abort;
use std::test::Fail;

// In each table: the runner file, the files of A and B, and the refusal that `sim` names.
type Row<'a> = (&'a str, &'a str, &'a str, &'a str);

// What the runner file is refused for, and the entries and the tree that it gives.
const RUNNERS: [Row<'static>; 17] = [
    (r#"{"federates":[],}"#, "", "", "NotJson: run.json"),
    ("[]", "", "", "NotAnObject: run.json"),
    (r#"{"federates":[]}"#, "", "", "NoFederates: run.json"),
    (
        r#"{"federates":[{"name":"A","exec":"a"},1]}"#,
        "",
        "",
        "BadEntry: run.json 1",
    ),
    (
        r#"{"federates":[{"name":"A","exec":"a"},{"exec":"b"}]}"#,
        "",
        "",
        "MissingName: run.json 1",
    ),
    (
        r#"{"federates":[{"name":"A","exec":" "}]}"#,
        "",
        "",
        "MissingExec: run.json 0",
    ),
    (
        r#"{"federates":[{"name":"A","exec":"'a"}]}"#,
        "",
        "",
        "UnclosedQuote: run.json 0",
    ),
    (
        r#"{"federates":[{"name":"broker","exec":"helics_broker"},{"name":"A","exec":"$self fed a.json"},{"name":"B","exec":"$self fed b.json","host":"grid7"}]}"#,
        "",
        "",
        "HostNotLocal: run.json 2",
    ),
    (
        r#"{"federates":[{"name":"A","exec":"a"},{"name":"b","exec":"helics_broker"},{"name":"c","exec":"/bin/helics_broker"}]}"#,
        "",
        "",
        "TwoBrokers: run.json 2",
    ),
    (
        r#"{"federates":[{"name":"A","exec":"a"}],"tree":1}"#,
        "",
        "",
        "BadTree: run.json Shape",
    ),
    (
        r#"{"federates":[{"name":"A","exec":"a"}],"tree":{"brokers":[{"name":"root"}],"cores":[{"name":"c"}]}}"#,
        "",
        "",
        "BadTree: run.json NameTwice",
    ),
    (
        r#"{"federates":[{"name":"A","exec":"a"}],"tree":{"brokers":[],"cores":[{"name":"c","parent":"b"}]}}"#,
        "",
        "",
        "BadTree: run.json UnknownParent",
    ),
    (
        r#"{"federates":[{"name":"A","exec":"a","core":"x"}]}"#,
        "",
        "",
        "BadTree: run.json UnknownCore",
    ),
    (
        r#"{"federates":[{"name":"broker","exec":"helics_broker -f 3"},{"name":"A","exec":"$self fed a.json"},{"name":"B","exec":"$self fed b.json"}]}"#,
        "",
        "",
        "BrokerCount: run.json 0",
    ),
    (
        r#"{"federates":[{"name":"A","exec":"$self fed a.json"},{"name":"B","exec":"$self fed"}]}"#,
        FEDERATE,
        "",
        "NoConfig: run.json 1",
    ),
    (
        r#"{"federates":[{"name":"A","exec":"$self fed a.json","core":"c"}],"tree":{"brokers":[{"name":"b"}],"cores":[{"name":"c","parent":"b"}]}}"#,
        FEDERATE,
        "",
        "NotBuilt: run.json",
    ),
    (
        r#"{"federates":[{"name":"A","exec":"$self fed a.json"}],"tree":{"brokers":[],"cores":[{"name":"c"},{"name":"d"}]}}"#,
        FEDERATE,
        "",
        "NotBuilt: run.json",
    ),
];

// What a federate file is refused for, and where in it.
const FEDERATES: [Row<'static>; 18] = [
    (ALONE, r#"{"name":"A",}"#, "", "NotJson: a.json /"),
    (
        ALONE,
        r#"{"inputs":[1]}"#,
        "",
        "NotAnObject: a.json /inputs/0",
    ),
    (ALONE, r#"{"script":{}}"#, "", "NotAList: a.json /script"),
    (
        ALONE,
        r#"{"inputs":[{"targets":["A/x",1]}]}"#,
        "",
        "NotAText: a.json /inputs/0/targets/1",
    ),
    (
        ALONE,
        r#"{"uninterruptible":1}"#,
        "",
        "NotABool: a.json /uninterruptible",
    ),
    (ALONE, r#"{"period":0.5}"#, "", "NotATime: a.json /period"),
    (
        ALONE,
        r#"{"period":"abc"}"#,
        "",
        "NotANumber: a.json /period",
    ),
    (
        ALONE,
        r#"{"period":"5 parsec"}"#,
        "",
        "UnknownUnit: a.json /period",
    ),
    (
        ALONE,
        r#"{"Period":"0.5ns"}"#,
        "",
        "NotWhole: a.json /Period",
    ),
    (
        ALONE,
        r#"{"period":"9223372036.854775808s"}"#,
        "",
        "TooLarge: a.json /period",
    ),
    (
        ALONE,
        r#"{"max_iterations":"5"}"#,
        "",
        "NotANumber: a.json /max_iterations",
    ),
    (
        ALONE,
        r#"{"max_iterations":0}"#,
        "",
        "OutOfRange: a.json /max_iterations",
    ),
    (
        ALONE,
        r#"{"publications":[{"name":"x"}]}"#,
        "",
        "Missing: a.json /publications/0/type",
    ),
    (
        ALONE,
        r#"{"publications":[{"key":"x","type":"double"}]}"#,
        "",
        "UnknownWord: a.json /publications/0/type",
    ),
    (
        ALONE,
        r#"{"name":"A","Period":1,"period":1}"#,
        "",
        "DoubledKey: a.json /",
    ),
    (
        ALONE,
        r#"{"publications":[{"key":"x","type":"raw"}],"script":[{"do":"publish","to":"x","value":{"hex":"abc"}}]}"#,
        "",
        "BadHex: a.json /script/0/value/hex",
    ),
    (
        ALONE,
        r#"{"script":[{"do":"repeat","times":1000000,"body":[{"do":"finish"},{"do":"finish"}]}]}"#,
        "",
        "TooManySteps: a.json /script",
    ),
    (
        PAIR,
        FEDERATE,
        r#"{"script":[{"do":"fly"}]}"#,
        "UnknownWord: b.json /script/0/do",
    ),
];

// What federates are refused for together.
const FEDERATIONS: [Row<'static>; 8] = [
    (
        ALONE,
        r#"{"publications":[{"key":"","type":"int"}]}"#,
        "",
        "BadName: A",
    ),
    (PAIR, FEDERATE, FEDERATE, "DuplicateFederate: A"),
    (
        PAIR,
        r#"{"name":"a b"}"#,
        r#"{"name":"a b"}"#,
        r#"DuplicateFederate: "a b""#,
    ),
    (
        ALONE,
        r#"{"publications":[{"key":"x","type":"int"},{"key":"x","type":"int"}]}"#,
        "",
        "DuplicateName: A/x",
    ),
    (
        PAIR,
        FEDERATE,
        r#"{"name":"B","subscriptions":[{"key":"Z/q","type":"int","required":true}],"script":[]}"#,
        "MissingRequired: B Z/q",
    ),
    (
        PAIR,
        r#"{"publications":[{"key":"x","type":"int"}]}"#,
        r#"{"subscriptions":[{"key":"A/x","type":"string"}]}"#,
        "KindMismatch: B A/x",
    ),
    (
        ALONE,
        r#"{"filters":[{"source_targets":"A/e","operation":"delay","properties":{"name":"delay","value":1}}]}"#,
        "",
        "FilterTarget: A/e",
    ),
    (PAIR, FEDERATE, r#"{"name":"B"}"#, "NoScript: B"),
];

// A file with one more of something than there may be: how it begins, so many numbered texts, and how it ends.
#[derive(Clone, Copy)]
struct PastLimit<'a> {
    path: &'a str,
    first: &'a str,
    count: usize,
    before: &'a str,
    behind: &'a str,
    last: &'a str,
    refusal: &'a str,
}

const PAST_LIMITS: [PastLimit<'static>; 5] = [
    PastLimit {
        path: "run.json",
        first: r#"{"federates":[{"name":"A","exec":"a"}],"tree":{"brokers":[],"cores":["#,
        count: 127,
        before: r#"{"name":"c"#,
        behind: r#""},"#,
        last: r#"{"name":"last"}]}}"#,
        refusal: "BadTree: run.json TooManyNodes",
    },
    PastLimit {
        path: "run.json",
        first: r#"{"federates":["#,
        count: 512,
        before: r#"{"name":"f"#,
        behind: r#"","exec":"$self fed a.json"},"#,
        last: r#"{"name":"last","exec":"$self fed a.json"}]}"#,
        refusal: "TooManyFederates: last",
    },
    PastLimit {
        path: "a.json",
        first: r#"{"inputs":["#,
        count: 256,
        before: r#"{"name":"i"#,
        behind: r#""},"#,
        last: "{}]}",
        refusal: "TooManyInterfaces: A",
    },
    PastLimit {
        path: "a.json",
        first: r#"{"endpoints":[{"name":"e"}],"filters":["#,
        count: 8,
        before: r#"{"name":"f"#,
        behind: r#"","source_targets":"A/e","operation":"delay","properties":{"name":"delay","value":1}},"#,
        last: r#"{"source_targets":"A/e","operation":"delay","properties":{"name":"delay","value":1}}]}"#,
        refusal: "ChainTooLong: A/e",
    },
    PastLimit {
        path: "a.json",
        first: r#"{"script":["#,
        count: 9,
        before: r#"{"do":"repeat","times":"#,
        behind: r#","body":["#,
        last: "]}]}]}]}]}]}]}]}]}]}",
        refusal: "TooDeep: a.json /script/0/body/0/body/0/body/0/body/0/body/0/body/0/body/0/body/0",
    },
];

fn text_of(alloc: Global, past: &PastLimit<'_>) -> Result<String, AllocError> {
    let mut text = String::from_str(alloc, past.first)?;
    for number in 0..past.count {
        write!(text, "{}{number}{}", past.before, past.behind)?;
    }
    text.push_str(past.last)?;
    Ok(text)
}

fn expect_refused(rt: &impl Abort, alloc: Global, table: &[Row<'_>]) -> Result<(), Fail> {
    for (runner, a, b, refusal) in table {
        let err = format!(in alloc; "helics_run: refused: {refusal}\n")?;
        let texts = [("run.json", *runner), ("a.json", *a), ("b.json", *b)];
        expect_of(rt, alloc, &texts, Status::Refused, "", err.as_str())?;
    }
    Ok(())
}

#[test]
fn refusals_are_named(rt: HostRuntime) -> Result<(), Fail> {
    let alloc = rt.alloc();
    expect_refused(&rt, alloc, &RUNNERS)?;
    expect_refused(&rt, alloc, &FEDERATES)?;
    expect_refused(&rt, alloc, &FEDERATIONS)?;
    Ok(())
}

#[test]
fn what_is_past_a_limit_is_refused(rt: HostRuntime) -> Result<(), Fail> {
    let alloc = rt.alloc();
    for past in PAST_LIMITS {
        let text = text_of(alloc, &past)?;
        let err = format!(in alloc; "helics_run: refused: {}\n", past.refusal)?;
        let texts = [
            (past.path, text.as_str()),
            ("run.json", ALONE),
            ("a.json", "{}"),
        ];
        expect_of(&rt, alloc, &texts, Status::Refused, "", err.as_str())?;
    }
    Ok(())
}

// A file of one byte more than there may be.
#[test]
fn a_file_that_is_too_large_is_refused(rt: HostRuntime) -> Result<(), Fail> {
    let alloc = rt.alloc();
    let bytes = vec![in alloc; b' '; 16_777_217]?;
    let files = [("run.json", ALONE.as_bytes()), ("a.json", bytes.as_slice())];
    let err = "helics_run: refused: FileTooLarge: a.json\n";
    Call::new("sim run.json", &files).expect(&rt, alloc, Status::Refused, "", err)?;
    Ok(())
}
