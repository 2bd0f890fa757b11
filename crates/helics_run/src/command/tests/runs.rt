use super::{ALONE, PAIR, THREE, expect_of};
use crate::status::Status;
use std::test::Fail;

const TWO: [(&str, &str); 3] = [
    ("run.json", PAIR),
    (
        "a.json",
        r#"{"name":"A","publications":[{"key":"x","type":"int"}],"script":[{"do":"request","time":"10ns"},{"do":"publish","to":"x","value":5},{"do":"request","time":"20ns"}]}"#,
    ),
    (
        "b.json",
        r#"{"name":"B","subscriptions":[{"key":"A/x","type":"int"}],"script":[{"do":"request","time":"100ns"}]}"#,
    ),
];

const TWO_LOGS: &str = "federate 0 A
grant 0.000000000 1 next
grant 0.000000010 0 next
grant 0.000000020 0 next
end finished
federate 1 B
grant 0.000000000 1 next
grant 0.000000010 1 next
value 0 from A/x int 5
end finished
";

// A federate that hears itself hears what it publishes at its next grant.
const OWN: [(&str, &str); 2] = [
    ("run.json", ALONE),
    (
        "a.json",
        r#"{"name":"A","publications":[{"key":"x","type":"int"}],"subscriptions":[{"key":"A/x","type":"int"}],"script":[{"do":"request","time":"10ns"},{"do":"publish","to":"x","value":3},{"do":"request","time":"20ns"}]}"#,
    ),
];

const OWN_LOGS: &str = "federate 0 A
grant 0.000000000 1 next
grant 0.000000010 0 next
grant 0.000000011 0 next
value 0 from A/x int 3
end finished
";

// The ends of 64 signed bits.
const ENDS: [(&str, &str); 2] = [
    ("run.json", ALONE),
    (
        "a.json",
        r#"{"name":"A","publications":[{"key":"x","type":"int"},{"key":"y","type":"int"}],"subscriptions":[{"key":"A/y","type":"int"},{"key":"A/x","type":"int"}],"script":[{"do":"publish","to":"x","value":-9223372036854775808},{"do":"publish","to":"y","value":9223372036854775807},{"do":"request","time":"10ns"}]}"#,
    ),
];

const ENDS_LOGS: &str = "federate 0 A
grant 0.000000000 1 next
grant 0.000000001 0 next
value 1 from A/x int -9223372036854775808
value 0 from A/y int 9223372036854775807
end finished
";

const CHAIN: [(&str, &str); 4] = [
    ("run.json", THREE),
    (
        "a.json",
        r#"{"name":"A","publications":[{"key":"x","type":"int"}],"script":[{"do":"request","time":"50ns"},{"do":"publish","to":"x","value":1},{"do":"request","time":"200ns"}]}"#,
    ),
    (
        "b.json",
        r#"{"name":"B","publications":[{"key":"y","type":"int"}],"subscriptions":[{"key":"A/x","type":"int"}],"script":[{"do":"request","time":"90ns"},{"do":"publish_sum","to":"y","input":0,"add":1},{"do":"request","time":"200ns"}]}"#,
    ),
    (
        "c.json",
        r#"{"name":"C","subscriptions":[{"key":"B/y","type":"int"}],"script":[{"do":"request","time":"90ns"}]}"#,
    ),
];

const CHAIN_LOGS: &str = "federate 0 A
grant 0.000000000 1 next
grant 0.000000050 0 next
grant 0.000000200 0 next
end finished
federate 1 B
grant 0.000000000 1 next
grant 0.000000050 1 next
value 0 from A/x int 1
grant 0.000000200 0 next
end finished
federate 2 C
grant 0.000000000 1 next
grant 0.000000050 2 next
value 0 from B/y int 2
end finished
";

// Ten inputs of two federates hear one publication.
const FAN: [(&str, &str); 4] = [
    ("run.json", THREE),
    (
        "a.json",
        r#"{"name":"A","publications":[{"key":"x","type":"int"}],"script":[{"do":"request","time":"10ns"},{"do":"publish","to":"x","value":-7}]}"#,
    ),
    (
        "b.json",
        r#"{"name":"B","subscriptions":[{"key":"A/x","type":"int"},{"key":"A/x","type":"int"},{"key":"A/x","type":"int"},{"key":"A/x","type":"int"}],"script":[{"do":"request","time":"20ns"}]}"#,
    ),
    (
        "c.json",
        r#"{"name":"C","subscriptions":[{"key":"A/x","type":"int"},{"key":"A/x","type":"int"},{"key":"A/x","type":"int"},{"key":"A/x","type":"int"},{"key":"A/x","type":"int"},{"key":"A/x","type":"int"}],"script":[{"do":"request","time":"10ns"},{"do":"request","time":"20ns"}]}"#,
    ),
];

const FAN_LOGS: &str = "federate 0 A
grant 0.000000000 1 next
grant 0.000000010 0 next
end finished
federate 1 B
grant 0.000000000 1 next
grant 0.000000010 1 next
value 0 from A/x int -7
value 1 from A/x int -7
value 2 from A/x int -7
value 3 from A/x int -7
end finished
federate 2 C
grant 0.000000000 1 next
grant 0.000000010 0 next
grant 0.000000011 0 next
value 0 from A/x int -7
value 1 from A/x int -7
value 2 from A/x int -7
value 3 from A/x int -7
value 4 from A/x int -7
value 5 from A/x int -7
end finished
";

// Two federates that hear each other.
const EACH: [(&str, &str); 3] = [
    ("run.json", PAIR),
    (
        "a.json",
        r#"{"name":"A","publications":[{"key":"x","type":"int"}],"subscriptions":[{"key":"B/y","type":"int"}],"script":[{"do":"request","time":"10ns"},{"do":"publish","to":"x","value":1},{"do":"request","time":"20ns"}]}"#,
    ),
    (
        "b.json",
        r#"{"name":"B","publications":[{"key":"y","type":"int"}],"subscriptions":[{"key":"A/x","type":"int"}],"script":[{"do":"request","time":"10ns"},{"do":"publish","to":"y","value":2},{"do":"request","time":"20ns"}]}"#,
    ),
];

const EACH_LOGS: &str = "federate 0 A
grant 0.000000000 1 next
grant 0.000000010 0 next
grant 0.000000011 0 next
value 0 from B/y int 2
end finished
federate 1 B
grant 0.000000000 1 next
grant 0.000000010 0 next
grant 0.000000011 0 next
value 0 from A/x int 1
end finished
";

#[test]
fn federates_that_exchange_values(rt: HostRuntime) -> Result<(), Fail> {
    let table = [
        (&TWO[..], TWO_LOGS),
        (&OWN[..], OWN_LOGS),
        (&ENDS[..], ENDS_LOGS),
        (&CHAIN[..], CHAIN_LOGS),
        (&FAN[..], FAN_LOGS),
        (&EACH[..], EACH_LOGS),
    ];
    for (texts, logs) in table {
        expect_of(&rt, rt.alloc(), texts, Status::Done, logs, "")?;
    }
    Ok(())
}
