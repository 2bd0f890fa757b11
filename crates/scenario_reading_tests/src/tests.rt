use hel_outside::MemFiles;
use scenario_reading::{Unread, read_scenario, read_setting};
use std::alloc::Global;
use std::fmt::Write;
use std::process::Abort;
use std::test::Fail;

// Two federates, A and B, whose files are `a.json` and `b.json`.
const TWO: &str = r#"{"federates":[{"name":"A","exec":"$self fed a.json"},
    {"name":"B","exec":"$self fed b.json"}]}"#;

fn untold(alloc: Global, unread: Unread) -> Result<String, Fail> {
    match unread {
        Unread::FileFault(path) => Ok(format!(in alloc; "cannot read {path}")?),
        Unread::Refused(refusal) => Ok(refusal.text(alloc)?),
        Unread::OutOfMemory => Ok(String::from_str(alloc, "out of memory")?),
    }
}

// Texts at paths.
fn files_of(alloc: Global, texts: &[(&str, &str)]) -> Result<MemFiles, Fail> {
    let mut held = Vec::new(alloc);
    for (path, text) in texts {
        held.push((*path, text.as_bytes()))?;
    }
    Ok(MemFiles::new(alloc, &held, &[])?)
}

fn told_to_run(alloc: Global, files: &mut MemFiles) -> Result<String, Fail> {
    match read_scenario(alloc, files, "run.json") {
        Ok(scenario) => Ok(format!(in alloc; "{} to run", scenario.scripts.len())?),
        Err(unread) => untold(alloc, unread),
    }
}

fn told_to_check(alloc: Global, files: &mut MemFiles) -> Result<String, Fail> {
    match read_setting(alloc, files, "run.json") {
        Ok(setting) => Ok(format!(in alloc; "{} read", setting.scripts.len())?),
        Err(unread) => untold(alloc, unread),
    }
}

// What comes of reading `run.json` and its federates for a run, or to check them.
fn told(alloc: Global, texts: &[(&str, &str)], to_run: bool) -> Result<String, Fail> {
    let mut files = files_of(alloc, texts)?;
    if to_run {
        told_to_run(alloc, &mut files)
    } else {
        told_to_check(alloc, &mut files)
    }
}

// Reading says this. A failure shows the last of the texts.
fn says(
    rt: &impl Abort,
    alloc: Global,
    texts: &[(&str, &str)],
    to_run: bool,
    said: &str,
) -> Result<(), Fail> {
    let answer = told(alloc, texts, to_run)?;
    let last = texts.last().map_or("", |(_, text)| *text);
    assert_eq!(rt; (answer.as_str(), last), (said, last));
    Ok(())
}

// A runner file, and what comes of it.
const RUNNERS: [(&str, &str); 16] = [
    ("", "NotJson: run.json"),
    ("[]", "NotAnObject: run.json"),
    ("{}", "NoFederates: run.json"),
    (r#"{"federates":[1]}"#, "BadEntry: run.json 0"),
    (
        r#"{"federates":[{"name":"A","exec":"a"},{"exec":"b"}]}"#,
        "MissingName: run.json 1",
    ),
    (r#"{"federates":[{"name":"A"}]}"#, "MissingExec: run.json 0"),
    (
        r#"{"federates":[{"name":"A","exec":"a 'b"}]}"#,
        "UnclosedQuote: run.json 0",
    ),
    (
        r#"{"federates":[{"name":"b","exec":"helics_broker"},{"name":"A","exec":"a"},
        {"name":"B","exec":"b","host":"grid7"}]}"#,
        "HostNotLocal: run.json 2",
    ),
    (
        r#"{"federates":[{"name":"A","exec":"a"},{"name":"b","exec":"helics_broker"},
        {"name":"c","exec":"helics_broker"}]}"#,
        "TwoBrokers: run.json 2",
    ),
    (
        r#"{"federates":[{"name":"A","exec":"a"}],"tree":1}"#,
        "BadTree: run.json Shape",
    ),
    (
        r#"{"federates":[{"name":"A","exec":"a","core":"x"}]}"#,
        "BadTree: run.json UnknownCore",
    ),
    (
        r#"{"federates":[{"name":"b","exec":"helics_broker -f 3"},{"name":"A","exec":"a"}]}"#,
        "BrokerCount: run.json 0",
    ),
    (
        r#"{"federates":[{"name":"A","exec":"a"}]}"#,
        "NoConfig: run.json 0",
    ),
    (
        r#"{"federates":[{"name":"b","exec":"helics_broker"},{"name":"A","exec":"$self fed"}]}"#,
        "NoConfig: run.json 1",
    ),
    (
        r#"{"federates":[{"name":"A","exec":"$self fed c d"}]}"#,
        "cannot read c",
    ),
    (
        r#"{"federates":[{"name":"A","exec":"a","directory":"d","config":"c.json"}]}"#,
        "cannot read d/c.json",
    ),
];

#[test]
fn runner_files(rt: HostRuntime) -> Result<(), Fail> {
    for (runner, said) in RUNNERS {
        says(&rt, rt.alloc(), &[("run.json", runner)], true, said)?;
    }
    Ok(())
}

// The file of A, and what comes of it where B's is refused too.
const FEDERATES: [(&str, &str); 18] = [
    ("{", "NotJson: a.json /"),
    ("1", "NotAnObject: a.json /"),
    (r#"{"filters":{}}"#, "NotAList: a.json /filters"),
    (r#"{"name":1}"#, "NotAText: a.json /name"),
    (
        r#"{"uninterruptible":1}"#,
        "NotABool: a.json /uninterruptible",
    ),
    (r#"{"period":0.5}"#, "NotATime: a.json /period"),
    (r#"{"period":"x"}"#, "NotANumber: a.json /period"),
    (r#"{"period":"1 parsec"}"#, "UnknownUnit: a.json /period"),
    (r#"{"Period":"0.5ns"}"#, "NotWhole: a.json /Period"),
    (
        r#"{"period":"9223372036.854775808s"}"#,
        "TooLarge: a.json /period",
    ),
    (
        r#"{"max_iterations":"5"}"#,
        "NotANumber: a.json /max_iterations",
    ),
    (
        r#"{"max_iterations":0}"#,
        "OutOfRange: a.json /max_iterations",
    ),
    (
        r#"{"publications":[{}]}"#,
        "Missing: a.json /publications/0/key",
    ),
    (
        r#"{"script":[{"do":"fly"}]}"#,
        "UnknownWord: a.json /script/0/do",
    ),
    (
        r#"{"name":"A","Period":1,"period":1}"#,
        "DoubledKey: a.json /",
    ),
    (
        r#"{"publications":[{"key":"x","type":"raw"}],
        "script":[{"do":"publish","to":"x","value":{"hex":"0"}}]}"#,
        "BadHex: a.json /script/0/value/hex",
    ),
    (
        r#"{"script":[{"do":"repeat","times":1000000,"body":[{"do":"finish"},{"do":"finish"}]}]}"#,
        "TooManySteps: a.json /script",
    ),
    (
        r#"{"endpoints":[{"name":"e"}],"Names":1}"#,
        "NotAnObject: b.json /",
    ),
];

#[test]
fn federate_files(rt: HostRuntime) -> Result<(), Fail> {
    for (federate, said) in FEDERATES {
        let texts = [("run.json", TWO), ("a.json", federate), ("b.json", "[]")];
        says(&rt, rt.alloc(), &texts, false, said)?;
    }
    Ok(())
}

// The files of A and B, and what comes of them.
const BOTH: [(&str, &str, &str); 17] = [
    ("{}", "{}", "NoScript: A"),
    (r#"{"script":[]}"#, "{}", "NoScript: B"),
    (r#"{"script":[]}"#, r#"{"script":[]}"#, "2 to run"),
    ("{}", r#"{"name":"A"}"#, "DuplicateFederate: A"),
    (
        r#"{"name":"a b"}"#,
        r#"{"name":"a b"}"#,
        r#"DuplicateFederate: "a b""#,
    ),
    (r#"{"name":""}"#, "{}", "BadName: "),
    (r#"{"name":"\u0007"}"#, "{}", r#"BadName: "\u0007""#),
    (
        r#"{"publications":[{"key":"x","global":true,"type":"int"}]}"#,
        r#"{"publications":[{"key":"x","global":true,"type":"int"}]}"#,
        "DuplicateName: x",
    ),
    (
        r#"{"name":"B","publications":[{"key":"x","type":"int"}]}"#,
        "{}",
        "DuplicateFederate: B",
    ),
    (
        "{}",
        r#"{"subscriptions":[{"key":"Z/q","required":true}]}"#,
        "MissingRequired: B Z/q",
    ),
    (
        "{}",
        r#"{"name":"é","subscriptions":[{"key":"","required":true}]}"#,
        "MissingRequired: \"é\" ",
    ),
    (
        r#"{"publications":[{"key":"x","type":"int"}]}"#,
        r#"{"subscriptions":[{"key":"A/x","type":"string"}]}"#,
        "KindMismatch: B A/x",
    ),
    (
        r#"{"publications":[{"key":"x","type":"int"}]}"#,
        r#"{"subscriptions":[{"key":"A/x","type":"raw"},{"key":"A/y","required":true}]}"#,
        "MissingRequired: B A/y",
    ),
    (
        "{}",
        r#"{"filters":[{"source_targets":"A/e","operation":"delay","properties":{"name":"delay","value":1}}]}"#,
        "FilterTarget: A/e",
    ),
    (
        r#"{"endpoints":[{"name":"e"}]}"#,
        r#"{"filters":[{"source_targets":"A/e","operation":"reroute","properties":{"name":"newdestination","value":"B/e"}}]}"#,
        "FilterTarget: B/e",
    ),
    (r#"{"script":1}"#, "", "NotAList: a.json /script"),
    (r#"{"name":"B"}"#, "", "NotJson: b.json /"),
];

#[test]
fn federations(rt: HostRuntime) -> Result<(), Fail> {
    for (first, second, said) in BOTH {
        let texts = [("run.json", TWO), ("a.json", first), ("b.json", second)];
        says(&rt, rt.alloc(), &texts, true, said)?;
    }
    Ok(())
}

// A tree with two cores is refused behind the files and before the names; a check needs no script.
#[test]
fn trees_and_checks(rt: HostRuntime) -> Result<(), Fail> {
    let deep =
        r#"{"federates":[{"name":"A","exec":"$self fed a.json"},{"name":"A","exec":"$self fed b.json"}],
        "tree":{"brokers":[],"cores":[{"name":"c"},{"name":"d"}]}}"#;
    let table = [
        (deep, "{}", "NotBuilt: run.json"),
        (deep, "[]", "NotAnObject: b.json /"),
        (TWO, "{}", "2 read"),
    ];
    for (runner, second, said) in table {
        let texts = [("run.json", runner), ("a.json", "{}"), ("b.json", second)];
        says(&rt, rt.alloc(), &texts, false, said)?;
    }
    Ok(())
}

// Files of which the read of this number fails.
fn failing(alloc: Global, number: u64) -> Result<MemFiles, Fail> {
    let held = [
        ("d/run.json", TWO.as_bytes()),
        ("d/a.json", "{}".as_bytes()),
        ("d/b.json", "{}".as_bytes()),
    ];
    Ok(MemFiles::new(alloc, &held, &[number])?)
}

fn told_of(alloc: Global, files: &mut MemFiles) -> Result<String, Fail> {
    match read_setting(alloc, files, "d/run.json") {
        Ok(_) => Ok(String::from_str(alloc, "read")?),
        Err(unread) => untold(alloc, unread),
    }
}

// What is told where the read of this number fails, how many failed, and the path of the last one.
fn told_of_fault(alloc: Global, number: u64) -> Result<String, Fail> {
    let mut files = failing(alloc, number)?;
    let answer = told_of(alloc, &mut files)?;
    let faults = files.faults();
    let path = files.failed_path();
    Ok(format!(in alloc; "{answer}: {faults} at {path}")?)
}

fn fault_says(rt: &impl Abort, alloc: Global, number: u64, said: &str) -> Result<(), Fail> {
    let answer = told_of_fault(alloc, number)?;
    assert_eq!(rt; answer.as_str(), said);
    Ok(())
}

// A read that fails keeps its path. Each file is read once.
#[test]
fn failing_reads(rt: HostRuntime) -> Result<(), Fail> {
    let table = [
        (1, "cannot read d/run.json: 1 at d/run.json"),
        (2, "cannot read d/a.json: 1 at d/a.json"),
        (3, "cannot read d/b.json: 1 at d/b.json"),
        (4, "read: 0 at "),
    ];
    for (number, said) in table {
        fault_says(&rt, rt.alloc(), number, said)?;
    }
    Ok(())
}

// A text, this one so many times, and a text.
fn repeated(
    alloc: Global,
    first: &str,
    text: &str,
    count: usize,
    last: &str,
) -> Result<String, Fail> {
    let mut all = String::from_str(alloc, first)?;
    for _ in 0..count {
        all.push_str(text)?;
    }
    all.push_str(last)?;
    Ok(all)
}

// A file of A: what stands before and behind a text that is repeated; and what comes of it.
type Limit = (
    &'static str,
    &'static str,
    usize,
    &'static str,
    &'static str,
);

const LIMITS: [Limit; 3] = [
    (r#"{"inputs":["#, "{},", 256, "{}]}", "TooManyInterfaces: A"),
    (
        r#"{"endpoints":[{"name":"e"}],"filters":["#,
        r#"{"source_targets":"A/e","operation":"delay","properties":{"name":"delay","value":1}},"#,
        8,
        r#"{"source_targets":"A/e","operation":"delay","properties":{"name":"delay","value":1}}]}"#,
        "ChainTooLong: A/e",
    ),
    (
        r#"{"script":["#,
        r#"{"do":"repeat","times":1,"body":["#,
        9,
        "]}]}]}]}]}]}]}]}]}]}",
        "TooDeep: a.json /script/0/body/0/body/0/body/0/body/0/body/0/body/0/body/0/body/0",
    ),
];

fn is_past(rt: &impl Abort, alloc: Global, limit: &Limit) -> Result<(), Fail> {
    let (before, text, count, behind, said) = *limit;
    let first = repeated(alloc, before, text, count, behind)?;
    let texts = [
        ("run.json", TWO),
        ("a.json", first.as_str()),
        ("b.json", "{}"),
    ];
    says(rt, alloc, &texts, false, said)
}

#[test]
fn past_the_limits(rt: HostRuntime) -> Result<(), Fail> {
    for limit in LIMITS {
        is_past(&rt, rt.alloc(), &limit)?;
    }
    Ok(())
}

// A runner file of 513 federates.
fn crowd(alloc: Global) -> Result<String, Fail> {
    let mut runner = String::from_str(alloc, r#"{"federates":["#)?;
    for f in 0..512 {
        write!(
            runner,
            "{{\"name\":\"f{f}\",\"exec\":\"$self fed a.json\"}},"
        )?;
    }
    runner.push_str(r#"{"name":"last","exec":"$self fed a.json"}]}"#)?;
    Ok(runner)
}

#[test]
fn one_federate_too_many(rt: HostRuntime) -> Result<(), Fail> {
    let runner = crowd(rt.alloc())?;
    let texts = [("run.json", runner.as_str()), ("a.json", "{}")];
    says(&rt, rt.alloc(), &texts, false, "TooManyFederates: last")
}

// Files of which A's is too large.
fn with_a_large_file(alloc: Global) -> Result<MemFiles, Fail> {
    let long = vec![in alloc; b' '; 16_777_217]?;
    let held = [("run.json", TWO.as_bytes()), ("a.json", long.as_slice())];
    Ok(MemFiles::new(alloc, &held, &[])?)
}

#[test]
fn a_file_that_is_too_large(rt: HostRuntime) -> Result<(), Fail> {
    let mut files = with_a_large_file(rt.alloc())?;
    let answer = told_to_check(rt.alloc(), &mut files)?;
    assert_eq!(rt; answer.as_str(), "FileTooLarge: a.json");
    Ok(())
}
