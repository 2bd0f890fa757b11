use super::{ALONE, Call, FEDERATE};
use crate::status::Status;
use std::test::Fail;

const BROKER: &str =
    r#"{"name":"demo","federates":[{"name":"broker","exec":"helics_broker -f 2 --loglevel=warning","directory":".","host":"localhost"},{"name":"A","exec":"$self fed a.json","directory":".","host":"localhost"},{"name":"B","exec":"$self fed b.json","directory":".","host":"localhost"}]}"#;

const SENDER: &str =
    r#"{"name":"A","coreType":"zmq","publications":[{"key":"x","type":"int"}],"script":[{"do":"request","time":"10ns"}]}"#;

const TAKER: &str =
    r#"{"name":"B","subscriptions":[{"key":"A/x","type":"int","required":true}],"script":[{"do":"request","time":"100ns"}]}"#;

const NO_SCRIPT: &str = r#"{"name":"A"}"#;

const CHECKED: &str = "federates 2
nodes 2
federate 0 A core core ancestors 0
federate 1 B core core ancestors 1
ok
";

const ONE_CHECKED: &str = "federates 1
nodes 2
federate 0 A core core ancestors 0
ok
";

// What `check` prints.
#[test]
fn plans_that_are_printed(rt: HostRuntime) -> Result<(), Fail> {
    let pair = [
        ("run.json", BROKER.as_bytes()),
        ("a.json", SENDER.as_bytes()),
        ("b.json", TAKER.as_bytes()),
    ];
    let alone = [
        ("run.json", ALONE.as_bytes()),
        ("a.json", NO_SCRIPT.as_bytes()),
    ];
    for (files, text) in [(&pair[..], CHECKED), (&alone[..], ONE_CHECKED)] {
        Call::new("check run.json", files).expect(&rt, rt.alloc(), Status::Done, text, "")?;
    }
    Ok(())
}

#[test]
fn a_file_without_a_name_has_that_of_its_entry(rt: HostRuntime) -> Result<(), Fail> {
    let files = [
        ("d/run.json", ALONE.as_bytes()),
        ("d/a.json", FEDERATE.as_bytes()),
    ];
    let logs = "federate 0 A\ngrant 0.000000000 1 next\ngrant 0.000000010 0 next\nend finished\n";
    Call::new("sim d/run.json", &files).expect(&rt, rt.alloc(), Status::Done, logs, "")?;
    let unnamed = br#"{"script":[{"do":"request","time":"10ns"}]}"#.as_slice();
    let files = [("run.json", ALONE.as_bytes()), ("a.json", unnamed)];
    Call::new("sim run.json", &files).expect(&rt, rt.alloc(), Status::Done, logs, "")?;
    Ok(())
}
