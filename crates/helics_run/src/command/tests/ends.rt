use super::{ALONE, Call, PAIR, expect_of};
use crate::status::Status;
use std::test::Fail;

const REPEATS: &str =
    r#"{"name":"A","script":[{"do":"repeat","times":2,"body":[{"do":"advance","by":"5ns"}]},{"do":"fail","text":"x"}]}"#;

const REPEATS_LOGS: &str = "federate 0 A
grant 0.000000000 1 next
grant 0.000000005 0 next
grant 0.000000010 0 next
end failed \"x\"
";

const FAILS: &str = r#"{"name":"A","script":[{"do":"fail","text":"x"}]}"#;

const WAITS: &str = r#"{"name":"B","script":[{"do":"request","time":"10ns"}]}"#;

const FAILS_LOGS: &str = "federate 0 A
grant 0.000000000 1 next
end failed \"x\"
federate 1 B
end open
";

// A asks for the greatest time, which is granted only once B has finished; a publish there is refused.
const GREATEST: &str =
    r#"{"name":"A","publications":[{"key":"y","type":"int"}],"subscriptions":[{"key":"B/x","type":"int"}],"script":[{"do":"request","time":"9223372036854775807ns"},{"do":"publish","to":"y","value":1}]}"#;

const SHORT: &str =
    r#"{"name":"B","publications":[{"key":"x","type":"int"}],"script":[{"do":"request","time":"10ns"}]}"#;

const GREATEST_LOGS: &str = "federate 0 A
grant 0.000000000 1 next
grant 9223372036.854775807 0 next
end failed \"PastHorizon\"
federate 1 B
grant 0.000000000 1 next
grant 0.000000010 0 next
end finished
";

#[test]
fn runs_that_a_failure_ends(rt: HostRuntime) -> Result<(), Fail> {
    let alone = [("run.json", ALONE), ("a.json", REPEATS)];
    let pair = [("run.json", PAIR), ("a.json", FAILS), ("b.json", WAITS)];
    let greatest = [("run.json", PAIR), ("a.json", GREATEST), ("b.json", SHORT)];
    let halted = "helics_run: halted by A: failed \"x\"\n";
    let past = "helics_run: halted by A: failed \"PastHorizon\"\n";
    let table = [
        (&alone[..], REPEATS_LOGS, halted),
        (&pair[..], FAILS_LOGS, halted),
        (&greatest[..], GREATEST_LOGS, past),
    ];
    for (texts, logs, err) in table {
        expect_of(&rt, rt.alloc(), texts, Status::Halted, logs, err)?;
    }
    Ok(())
}

// Two federates that wait for current updates and take each other's values.
const ONE: &str =
    r#"{"name":"A","wait_for_current_time_update":true,"publications":[{"key":"x","type":"int"}],"subscriptions":[{"key":"B/y","type":"int"}],"script":[{"do":"request","time":"10ns"}]}"#;

const OTHER: &str =
    r#"{"name":"B","wait_for_current_time_update":true,"publications":[{"key":"y","type":"int"}],"subscriptions":[{"key":"A/x","type":"int"}],"script":[{"do":"request","time":"10ns"}]}"#;

const LATER: &str =
    r#"{"name":"B","wait_for_current_time_update":true,"publications":[{"key":"y","type":"int"}],"subscriptions":[{"key":"A/x","type":"int"}],"script":[{"do":"request","time":"20ns"}]}"#;

const STUCK: &str = "federate 0 A
grant 0.000000000 1 next
end waiting
federate 1 B
grant 0.000000000 1 next
end waiting
";

const THROUGH: &str = "federate 0 A
grant 0.000000000 1 next
grant 0.000000010 0 next
end finished
federate 1 B
grant 0.000000000 1 next
grant 0.000000020 0 next
end finished
";

const CHECKED: &str = "federates 2
nodes 2
federate 0 A core core ancestors 1
federate 1 B core core ancestors 1
wait cycle A B
ok
";

#[test]
fn federates_that_wait_for_each_other(rt: HostRuntime) -> Result<(), Fail> {
    let alloc = rt.alloc();
    let stuck = [("run.json", PAIR), ("a.json", ONE), ("b.json", OTHER)];
    expect_of(
        &rt,
        alloc,
        &stuck,
        Status::Stuck,
        STUCK,
        "helics_run: stuck\n",
    )?;
    let later = [("run.json", PAIR), ("a.json", ONE), ("b.json", LATER)];
    expect_of(&rt, alloc, &later, Status::Done, THROUGH, "")?;
    let files = [
        ("run.json", PAIR.as_bytes()),
        ("a.json", ONE.as_bytes()),
        ("b.json", OTHER.as_bytes()),
    ];
    Call::new("check run.json", &files).expect(&rt, alloc, Status::Done, CHECKED, "")?;
    Ok(())
}

// Standard error doesn't take the line behind the logs.
#[test]
fn lines_behind_logs_that_are_not_taken(rt: HostRuntime) -> Result<(), Fail> {
    let failed = [
        ("run.json", ALONE.as_bytes()),
        ("a.json", REPEATS.as_bytes()),
    ];
    let stuck = [
        ("run.json", PAIR.as_bytes()),
        ("a.json", ONE.as_bytes()),
        ("b.json", OTHER.as_bytes()),
    ];
    for (files, logs) in [(&failed[..], REPEATS_LOGS), (&stuck[..], STUCK)] {
        let call = Call {
            failing_errs: &[1],
            ..Call::new("sim run.json", files)
        };
        call.expect(&rt, rt.alloc(), Status::SinkFault, logs, "")?;
    }
    Ok(())
}
