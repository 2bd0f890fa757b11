use runner_config::{Runner, folder_of, joined, read_runner};
use std::alloc::{AllocError, Global};
use std::fmt::Write;
use std::test::Fail;

// A file, and why it is refused.
const REFUSED: [(&str, &str); 31] = [
    ("", "NotJson"),
    (r#"{"federates":[],}"#, "NotJson"),
    ("[]", "NotAnObject"),
    (r#"{"tree":1}"#, "NoFederates"),
    (r#"{"federates":{},"tree":1}"#, "NoFederates"),
    (
        r#"{"federates":[{"name":"A","exec":"a"}],"Federates":[]}"#,
        "NoFederates",
    ),
    (
        r#"{"federates":[{"exec":"a/helics_broker -x"},{"name":1,"exec":"helics_broker"}]}"#,
        "NoFederates",
    ),
    (
        r#"{"federates":[{"exec":"a/helics_broker '"},1]}"#,
        "MissingName(0)",
    ),
    (
        r#"{"federates":[{"name":"A","exec":"a"},[]]}"#,
        "BadEntry(1)",
    ),
    (
        r#"{"federates":[{"name":"A","exec":"a","Host":"x","host":"x"}]}"#,
        "BadEntry(0)",
    ),
    (r#"{"federates":[{"exec":"a","core":1}]}"#, "BadEntry(0)"),
    (
        r#"{"federates":[{"name":"A","exec":"a"},{"exec":"helics_broker"}]}"#,
        "MissingName(1)",
    ),
    (r#"{"federates":[{"name":"A"},{}]}"#, "MissingExec(0)"),
    (
        r#"{"federates":[{"name":"A","exec":" \t","host":"x"}]}"#,
        "MissingExec(0)",
    ),
    (
        r#"{"federates":[{"name":"A","exec":"a 'b\"","host":"x"}]}"#,
        "UnclosedQuote(0)",
    ),
    (
        r#"{"federates":[{"name":"b","exec":"helics_broker"},{"name":"A","exec":"a"},{"name":"B","exec":"b","host":"grid7"}],"tree":1}"#,
        "HostNotLocal(2)",
    ),
    (
        r#"{"federates":[{"name":"b","exec":"helics_broker"},{"name":"A","exec":"a"},{"name":"c","exec":"/usr/bin/helics_broker","host":"x"}]}"#,
        "HostNotLocal(2)",
    ),
    (
        r#"{"federates":[{"name":"b","exec":"helics_broker"},{"name":"A","exec":"a"},{"name":"c","exec":"/usr/bin/helics_broker"},1]}"#,
        "TwoBrokers(2)",
    ),
    (
        r#"{"federates":[{"name":"b","exec":"helics_broker -f 9"},{"name":"A","exec":"a"}],"tree":1}"#,
        "BadTree(Shape)",
    ),
    (
        r#"{"federates":[{"name":"A","exec":"a"}],"tree":{"cores":[{"name":"c"}]}}"#,
        "BadTree(Shape)",
    ),
    (
        r#"{"federates":[{"name":"A","exec":"a"}],"tree":{"brokers":[],"cores":[]}}"#,
        "BadTree(Shape)",
    ),
    (
        r#"{"federates":[{"name":"A","exec":"a"}],"tree":{"brokers":[],"cores":[{"name":"c","Name":"c"}]}}"#,
        "BadTree(Shape)",
    ),
    (
        r#"{"federates":[{"name":"A","exec":"a"}],"tree":{"brokers":[],"cores":[{"name":"c"}]},"Tree":1}"#,
        "BadTree(Shape)",
    ),
    (
        r#"{"federates":[{"name":"A","exec":"a"}],"tree":{"brokers":[{"name":"root","parent":"x"}],"cores":[{"name":"c"}]}}"#,
        "BadTree(NameTwice)",
    ),
    (
        r#"{"federates":[{"name":"A","exec":"a","core":"x"}],"tree":{"brokers":[{"name":"a","parent":"b"},{"name":"b"}],"cores":[{"name":"c"}]}}"#,
        "BadTree(UnknownParent)",
    ),
    (
        r#"{"federates":[{"name":"A","exec":"a","core":"x"}],"tree":{"brokers":[],"cores":[{"name":"c"},{"name":"d","parent":"c"}]}}"#,
        "BadTree(UnknownParent)",
    ),
    (
        r#"{"federates":[{"name":"A","exec":"a"},{"name":"b","exec":"helics_broker -f 9","core":"root"}]}"#,
        "BadTree(UnknownCore)",
    ),
    (
        r#"{"federates":[{"name":"A","exec":"a"},{"name":"b","exec":"helics_broker -f 0","core":"core"}]}"#,
        "BrokerCount(1)",
    ),
    (
        r#"{"federates":[{"name":"b","exec":"helics_broker -f3"},{"name":"A","exec":"a"},{"name":"B","exec":"b"}]}"#,
        "BrokerCount(0)",
    ),
    (
        r#"{"federates":[{"name":"b","exec":"x/helics_broker --federates 1 --federates 2"},{"name":"A","exec":"a"}]}"#,
        "BrokerCount(0)",
    ),
    (
        r#"{"federates":[{"name":"b","exec":"helics_broker -f -f1 --federates=18446744073709551617"},{"name":"A","exec":"a"}]}"#,
        "BrokerCount(0)",
    ),
];

// A file, and what it says: name, parent and kind of each node, then place, name, core, directory,
// path (`-` where there is none) and words of each entry.
const READ: [(&str, &str); 5] = [
    (
        r#"{"federates":[{"name":"b","exec":"helics_broker -f 2 --loglevel=warning"},{"name":"A","exec":"$self fed a.json"},{"name":"B","exec":"$self fed b.json"}]}"#,
        "root 0 Root, core 0 Core; 1 A 1 . a.json [$self|fed|a.json]; 2 B 1 . b.json [$self|fed|b.json]",
    ),
    (
        r#"{"federates":[{"name":"A","exec":"$self fed a.json"},{"name":"B","exec":"$self fed b.json"},{"name":"b","exec":"/bin/helics_broker -f002 --federates 2 --federates=2 -f x -f"}]}"#,
        "root 0 Root, core 0 Core; 0 A 1 . a.json [$self|fed|a.json]; 1 B 1 . b.json [$self|fed|b.json]",
    ),
    (
        r#"{"Feder_ates":[{"NA_ME":"Ä","exec":" a \"b \tc\"'d\"'\t'' ü\"y\"z ","directory":"d/e","host":"127.0.0.1","other":1,"Other":2}]}"#,
        "root 0 Root, core 0 Core; 0 Ä 1 d/e - [a|b \tcd\"||üyz]",
    ),
    (
        r#"{"federates":[{"name":"A","exec":"''"},{"name":"A","exec":"$self fed","host":"localhost"},{"name":"","exec":"$self fed -x"},{"name":"B","exec":"$self fed a","config":""},{"name":"C","exec":"\"$self fed\" a"}]}"#,
        "root 0 Root, core 0 Core; 0 A 1 . - []; 1 A 1 . - [$self|fed]; 2  1 . -x [$self|fed|-x]; 3 B 1 .  [$self|fed|a]; 4 C 1 . - [$self fed|a]",
    ),
    (
        r#"{"federates":[{"name":"A","exec":"a","core":"d"},{"name":"B","exec":"helics_broker.py"}],"tree":{"brokers":[{"name":"b","parent":"root"},{"name":"core","Parent":"b"}],"cores":[{"name":"c","parent":"core"},{"name":"d"}]}}"#,
        "root 0 Root, b 0 Broker, core 1 Broker, c 2 Core, d 0 Core; 0 A 4 . - [a]; 1 B 3 . - [helics_broker.py]",
    ),
];

// A path, and its folder.
const FOLDERS: [(&str, &str); 4] = [
    ("run.json", "."),
    ("a/b/run.json", "a/b"),
    ("/run.json", ""),
    ("", "."),
];

// A folder, a path, and both joined.
const JOINED: [(&str, &str, &str); 7] = [
    (".", "a", "a"),
    (".", "", ""),
    ("a", ".", "a"),
    ("a", "/b", "/b"),
    ("a", "b", "a/b"),
    ("", "b", "/b"),
    ("a/b", "../c", "a/b/../c"),
];

fn shown(alloc: Global, runner: &Runner) -> Result<String, AllocError> {
    let mut text = String::new(alloc);
    let mut mark = "";
    for node in runner.nodes.as_slice() {
        write!(text, "{mark}{} {} {:?}", node.name, node.parent, node.kind)?;
        mark = ", ";
    }
    for entry in runner.entries.as_slice() {
        let path = match &entry.config {
            Some(path) => path.as_str(),
            None => "-",
        };
        write!(text, "; {} {} {} ", entry.place, entry.name, entry.core)?;
        write!(text, "{} {path} [", entry.directory)?;
        let mut mark = "";
        for word in entry.words.as_slice() {
            write!(text, "{mark}{word}")?;
            mark = "|";
        }
        text.push_str("]")?;
    }
    Ok(text)
}

#[test]
fn refuses(rt: HostRuntime) -> Result<(), Fail> {
    for (file, told) in REFUSED {
        match read_runner(rt.alloc(), file.as_bytes()) {
            Ok(_) => assert_eq!(rt; "read", told, "{file}"),
            Err(refusal) => {
                let text = format!(in rt.alloc(); "{refusal:?}")?;
                assert_eq!(rt; text.as_str(), told, "{file}");
            }
        }
    }
    Ok(())
}

#[test]
fn reads(rt: HostRuntime) -> Result<(), Fail> {
    for (file, says) in READ {
        match read_runner(rt.alloc(), file.as_bytes()) {
            Ok(runner) => {
                let text = shown(rt.alloc(), &runner)?;
                assert_eq!(rt; text.as_str(), says, "{file}");
            }
            Err(refusal) => {
                let text = format!(in rt.alloc(); "{refusal:?}")?;
                assert_eq!(rt; text.as_str(), says, "{file}");
            }
        }
    }
    Ok(())
}

fn with_cores(alloc: Global, count: usize) -> Result<String, AllocError> {
    let mut text = String::from_str(
        alloc,
        r#"{"federates":[{"name":"A","exec":"a"}],"tree":{"brokers":[],"cores":["#,
    )?;
    let mut mark = "";
    for number in 0..count {
        write!(text, r#"{mark}{{"name":"c{number}"}}"#)?;
        mark = ",";
    }
    text.push_str("]}}")?;
    Ok(text)
}

#[test]
fn counts_nodes(rt: HostRuntime) -> Result<(), Fail> {
    for (cores, told) in [(127, "read"), (128, "BadTree(TooManyNodes)")] {
        let file = with_cores(rt.alloc(), cores)?;
        match read_runner(rt.alloc(), file.as_bytes()) {
            Ok(_) => assert_eq!(rt; "read", told, "{cores}"),
            Err(refusal) => {
                let text = format!(in rt.alloc(); "{refusal:?}")?;
                assert_eq!(rt; text.as_str(), told, "{cores}");
            }
        }
    }
    Ok(())
}

#[test]
fn joins_paths(rt: HostRuntime) -> Result<(), Fail> {
    for (path, folder) in FOLDERS {
        assert_eq!(rt; folder_of(path), folder, "{path}");
    }
    for (folder, path, whole) in JOINED {
        let text = joined(rt.alloc(), folder, path)?;
        assert_eq!(rt; text.as_str(), whole, "{folder} {path}");
    }
    Ok(())
}
