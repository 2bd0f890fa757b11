use super::{ALONE, PAIR, expect_of};
use crate::status::Status;
use std::test::Fail;

// Settings of a federate alone, its script, and its grants behind the entry.
const ALONES: [(&str, &str, &str); 4] = [
    (
        r#""period":"3ns","offset":"1ns","#,
        r#"{"do":"request","time":"7ns"},{"do":"request","time":"7ns"}"#,
        "grant 0.000000007 0 next\ngrant 0.000000010 0 next\n",
    ),
    (
        r#""time_delta":"4ns","#,
        r#"{"do":"request","time":"1ns"},{"do":"request","time":"2ns"}"#,
        "grant 0.000000004 0 next\ngrant 0.000000008 0 next\n",
    ),
    (
        r#""max_iterations":2,"#,
        r#"{"do":"request","time":"10ns"},{"do":"iterate","time":"20ns","mode":"force"},{"do":"iterate","time":"20ns","mode":"force"},{"do":"iterate","time":"20ns","mode":"force"}"#,
        "grant 0.000000010 0 next\ngrant 0.000000010 1 iterating\ngrant 0.000000010 2 iterating\ngrant 0.000000020 0 next\n",
    ),
    (
        r#""wait_for_current_time_update":true,"publications":[{"key":"x","type":"int"}],"subscriptions":[{"key":"A/x","type":"int"}],"#,
        r#"{"do":"request","time":"10ns"},{"do":"publish","to":"x","value":3},{"do":"request","time":"20ns"}"#,
        "grant 0.000000010 0 next\ngrant 0.000000011 0 next\nvalue 0 from A/x int 3\n",
    ),
];

#[test]
fn settings_of_a_federate_alone(rt: HostRuntime) -> Result<(), Fail> {
    let alloc = rt.alloc();
    for (settings, script, grants) in ALONES {
        let federate = format!(in alloc; "{{\"name\":\"A\",{settings}\"script\":[{script}]}}")?;
        let logs = format!(in alloc;
            "federate 0 A\ngrant 0.000000000 1 next\n{grants}end finished\n"
        )?;
        let texts = [("run.json", ALONE), ("a.json", federate.as_str())];
        expect_of(&rt, alloc, &texts, Status::Done, logs.as_str(), "")?;
    }
    Ok(())
}

// Settings of A, which publishes at 10 ns; settings and script of B, which takes it; what B is granted.
const TAKERS: [(&str, &str, &str, &str); 5] = [
    (
        "",
        r#""uninterruptible":true,"#,
        r#"{"do":"request","time":"100ns"}"#,
        "grant 0.000000100 0 next\nvalue 0 from A/x int 5\n",
    ),
    (
        "",
        "",
        r#"{"do":"request","time":"10ns"},{"do":"request","time":"20ns"}"#,
        "grant 0.000000010 0 next\ngrant 0.000000011 0 next\nvalue 0 from A/x int 5\n",
    ),
    (
        "",
        r#""wait_for_current_time_update":true,"#,
        r#"{"do":"request","time":"10ns"},{"do":"request","time":"20ns"}"#,
        "grant 0.000000010 0 next\nvalue 0 from A/x int 5\ngrant 0.000000020 0 next\n",
    ),
    (
        r#""output_delay":"5ns","#,
        r#""input_delay":"2ns","#,
        r#"{"do":"request","time":"100ns"}"#,
        "grant 0.000000017 0 next\nvalue 0 from A/x int 5\n",
    ),
    (
        r#""initial":[{"do":"publish","to":"x","value":4}],"#,
        "",
        r#"{"do":"request","time":"100ns"}"#,
        "value 0 from A/x int 4\ngrant 0.000000010 1 next\nvalue 0 from A/x int 5\n",
    ),
];

#[test]
fn settings_of_a_federate_that_takes_values(rt: HostRuntime) -> Result<(), Fail> {
    let alloc = rt.alloc();
    for (sender, taker, script, grants) in TAKERS {
        let a = format!(in alloc;
            "{{\"name\":\"A\",{sender}\"publications\":[{{\"key\":\"x\",\"type\":\"int\"}}],\"script\":[{{\"do\":\"request\",\"time\":\"10ns\"}},{{\"do\":\"publish\",\"to\":\"x\",\"value\":5}},{{\"do\":\"request\",\"time\":\"20ns\"}}]}}"
        )?;
        let b = format!(in alloc;
            "{{\"name\":\"B\",{taker}\"subscriptions\":[{{\"key\":\"A/x\",\"type\":\"int\"}}],\"script\":[{script}]}}"
        )?;
        let logs = format!(in alloc;
            "federate 0 A\ngrant 0.000000000 1 next\ngrant 0.000000010 0 next\ngrant 0.000000020 0 next\nend finished\nfederate 1 B\ngrant 0.000000000 1 next\n{grants}end finished\n"
        )?;
        let texts = [
            ("run.json", PAIR),
            ("a.json", a.as_str()),
            ("b.json", b.as_str()),
        ];
        expect_of(&rt, alloc, &texts, Status::Done, logs.as_str(), "")?;
    }
    Ok(())
}

// Two federates that iterate with each other: a setting of B, and its grants behind the first iterating one.
const ITERATING: [(&str, &str); 2] = [
    (
        "",
        "grant 0.000000010 3 iterating\nvalue 0 from A/x int 2\ngrant 0.000000020 0 next\n",
    ),
    (
        r#""max_iterations":1,"#,
        "grant 0.000000011 0 next\nvalue 0 from A/x int 2\ngrant 0.000000020 0 next\n",
    ),
];

const FIRST: &str =
    r#"{"name":"A","publications":[{"key":"x","type":"int"}],"subscriptions":[{"key":"B/y","type":"int"}],"script":[{"do":"request","time":"10ns"},{"do":"publish","to":"x","value":1},{"do":"iterate","time":"20ns","mode":"if_needed"},{"do":"publish","to":"x","value":2},{"do":"iterate","time":"20ns","mode":"if_needed"}]}"#;

#[test]
fn federates_that_iterate_with_each_other(rt: HostRuntime) -> Result<(), Fail> {
    let alloc = rt.alloc();
    for (setting, grants) in ITERATING {
        let b = format!(in alloc;
            "{{\"name\":\"B\",{setting}\"publications\":[{{\"key\":\"y\",\"type\":\"int\"}}],\"subscriptions\":[{{\"key\":\"A/x\",\"type\":\"int\"}}],\"script\":[{{\"do\":\"request\",\"time\":\"10ns\"}},{{\"do\":\"iterate\",\"time\":\"20ns\",\"mode\":\"if_needed\"}},{{\"do\":\"publish\",\"to\":\"y\",\"value\":7}},{{\"do\":\"iterate\",\"time\":\"20ns\",\"mode\":\"if_needed\"}},{{\"do\":\"iterate\",\"time\":\"20ns\",\"mode\":\"if_needed\"}}]}}"
        )?;
        let logs = format!(in alloc;
            "federate 0 A\ngrant 0.000000000 1 next\ngrant 0.000000010 0 next\ngrant 0.000000010 2 iterating\nvalue 0 from B/y int 7\ngrant 0.000000020 0 next\nend finished\nfederate 1 B\ngrant 0.000000000 1 next\ngrant 0.000000010 0 next\ngrant 0.000000010 1 iterating\nvalue 0 from A/x int 1\n{grants}end finished\n"
        )?;
        let texts = [
            ("run.json", PAIR),
            ("a.json", FIRST),
            ("b.json", b.as_str()),
        ];
        expect_of(&rt, alloc, &texts, Status::Done, logs.as_str(), "")?;
    }
    Ok(())
}
