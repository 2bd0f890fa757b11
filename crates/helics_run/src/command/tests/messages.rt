use super::{THREE, expect_of};
use crate::status::Status;
use std::test::Fail;

const TAKER: &str =
    r#"{"name":"C","endpoints":[{"name":"e"}],"script":[{"do":"request","time":"100ns"}]}"#;

const OTHER: &str = r#"{"name":"B","endpoints":[{"name":"e"}],"script":[]}"#;

const KEPT: &str =
    "grant 0.000000014 0 next\nmessage 0 from A/e for B/e at 0.000000014 bytes 6869\n";

const DROPPED: &str = "grant 0.000000100 0 next\n";

// On A/e stand a reroute to C/e, a delay of 4 ns and a drop with this chance in millionths, in this order.
#[test]
fn a_message_passes_the_filters_of_its_endpoint(rt: HostRuntime) -> Result<(), Fail> {
    let alloc = rt.alloc();
    let table = [
        (1_000_000, DROPPED),
        (0, KEPT),
        (607_535, KEPT),
        (607_536, DROPPED),
    ];
    for (chance, grants) in table {
        let sender = format!(in alloc;
            "{{\"name\":\"A\",\"endpoints\":[{{\"name\":\"e\"}}],\"filters\":[{{\"operation\":\"reroute\",\"source_targets\":\"A/e\",\"properties\":{{\"name\":\"newdestination\",\"value\":\"C/e\"}}}},{{\"operation\":\"delay\",\"source_targets\":\"A/e\",\"properties\":{{\"name\":\"delay\",\"value\":\"4ns\"}}}},{{\"operation\":\"random_drop\",\"source_targets\":\"A/e\",\"properties\":{{\"name\":\"dropprob\",\"value\":{chance}}}}}],\"script\":[{{\"do\":\"request\",\"time\":\"10ns\"}},{{\"do\":\"send\",\"from\":\"e\",\"to\":\"B/e\",\"data\":\"hi\"}}]}}"
        )?;
        let logs = format!(in alloc;
            "federate 0 A\ngrant 0.000000000 1 next\ngrant 0.000000010 0 next\nend finished\nfederate 1 B\ngrant 0.000000000 1 next\nend finished\nfederate 2 C\ngrant 0.000000000 1 next\n{grants}end finished\n"
        )?;
        let texts = [
            ("run.json", THREE),
            ("a.json", sender.as_str()),
            ("b.json", OTHER),
            ("c.json", TAKER),
        ];
        expect_of(&rt, alloc, &texts, Status::Done, logs.as_str(), "")?;
    }
    Ok(())
}
