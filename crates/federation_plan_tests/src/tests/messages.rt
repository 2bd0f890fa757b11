use super::*;
use message_filters::Filtered;

const B_E: EndRef = EndRef { fed: 1, index: 0 };

const C_E: EndRef = EndRef { fed: 2, index: 0 };

// What becomes of message 0 from `A/e` to `B/e`. The first word of chance from the state 0 is 607,535
// modulo a million.
const CASES: [(&str, Filtered); 9] = [
    (
        "A @e\nB @e\nC @e",
        Filtered::Kept {
            dest: B_E,
            delay: 0,
        },
    ),
    (
        "A @e +A/e:>C/e +A/e:4 +A/e:*1000000\nB @e\nC @e",
        Filtered::Dropped { place: 2 },
    ),
    (
        "A @e +A/e:>C/e +A/e:4 +A/e:*0\nB @e\nC @e",
        Filtered::Kept {
            dest: C_E,
            delay: 4,
        },
    ),
    (
        "A @e +A/e:>C/e +A/e:4 +A/e:*607535\nB @e\nC @e",
        Filtered::Kept {
            dest: C_E,
            delay: 4,
        },
    ),
    (
        "A @e +A/e:>C/e +A/e:4 +A/e:*607536\nB @e\nC @e",
        Filtered::Dropped { place: 2 },
    ),
    // the destination chain is that of the endpoint that results
    (
        "A @e +A/e:>C/e +A/e:4\nB @e -B/e:*1000000\nC @e -C/e:3",
        Filtered::Kept {
            dest: C_E,
            delay: 7,
        },
    ),
    // a place is one of the filter's own chain
    (
        "A @e +A/e:>C/e +A/e:4\nB @e\nC @e -C/e:3 -C/e:*1000000",
        Filtered::Dropped { place: 1 },
    ),
    // filters of other federates, in the order of federates
    (
        "A @e\nB @e +A/e:>C/e\nC @e +A/e:>B/e +A/e:4",
        Filtered::Kept {
            dest: B_E,
            delay: 4,
        },
    ),
    // filters of other endpoints and of the other side
    (
        "A @e -A/e:1\nB @e +B/e:1\nC @e -C/e:1",
        Filtered::Kept {
            dest: B_E,
            delay: 0,
        },
    ),
];

fn message(plan: &Plan) -> Option<Filtered> {
    let from = endpoint_of(plan, "A/e")?;
    let dest = endpoint_of(plan, "B/e")?;
    Some(plan.filtered(from, 0, dest))
}

fn becomes(rt: &impl Abort, plan: &Plan, want: Filtered, federates: &str) {
    assert_eq!(rt; message(plan), Some(want), "{federates}");
}

fn becomes_in_copy(
    rt: &impl Abort,
    alloc: Global,
    plan: &Plan,
    want: Filtered,
    federates: &str,
) -> Result<(), Fail> {
    let copy = copy(alloc, plan)?;
    becomes(rt, &copy, want, federates);
    Ok(())
}

fn passes(rt: &impl Abort, alloc: Global, federates: &str, want: Filtered) -> Result<(), Fail> {
    let plan = plan(alloc, federates)?;
    becomes(rt, &plan, want, federates);
    becomes_in_copy(rt, alloc, &plan, want, federates)
}

#[test]
fn messages_pass_the_filters(rt: HostRuntime) -> Result<(), Fail> {
    for (federates, want) in CASES {
        passes(&rt, rt.alloc(), federates, want)?;
    }
    Ok(())
}
