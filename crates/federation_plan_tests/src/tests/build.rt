use super::*;

// Why no plan is made of these federates, and "" where one is made.
const CASES: [(&str, &str); 15] = [
    ("", "NoFederates"),
    ("A", ""),
    // targets that are no publications
    (
        "A p\nB !A/p !A/q",
        "MissingRequired { fed: 1, name: Text { text: \"A/q\" } }",
    ),
    ("A <A/q", ""),
    // kinds that differ
    (
        "A p q:t\nB <i:A/p <b:A/q",
        "KindMismatch { fed: 1, input: 1, publication: EndRef { fed: 0, index: 1 } }",
    ),
    ("A p:t\nB <t:A/p <A/p", ""),
    // filters that refer to no endpoint
    ("A @e +A/e:1 +A/x:1", "FilterTarget(Text { text: \"A/x\" })"),
    ("A -A/y:1", "FilterTarget(Text { text: \"A/y\" })"),
    ("A @e +A/e:>A/z", "FilterTarget(Text { text: \"A/z\" })"),
    // eight and nine filters on a side
    (
        "A @e +A/e:1 +A/e:1 +A/e:1 +A/e:1 -A/e:1 -A/e:1 -A/e:1 -A/e:1\nB -A/e:1 -A/e:1 -A/e:1 -A/e:1 +A/e:1 +A/e:1 +A/e:1 +A/e:1",
        "",
    ),
    (
        "A @e +A/e:1 +A/e:1 +A/e:1 +A/e:1 +A/e:1\nB +A/e:1 +A/e:1 +A/e:1 +A/e:1",
        "ChainTooLong(EndRef { fed: 0, index: 0 })",
    ),
    (
        "A -B/f:1 -B/f:1 -B/f:1 -B/f:1 -B/f:1\nB @e @f -B/f:1 -B/f:1 -B/f:1 -B/f:1",
        "ChainTooLong(EndRef { fed: 1, index: 1 })",
    ),
    // each reason stands before the next one, in a later federate too
    (
        "A <i:B/p\nB p:t !A/q",
        "MissingRequired { fed: 1, name: Text { text: \"A/q\" } }",
    ),
    (
        "A +A/e:1\nB p:t <i:B/p",
        "KindMismatch { fed: 1, input: 0, publication: EndRef { fed: 1, index: 0 } }",
    ),
    (
        "A @e +A/e:1 +A/e:1 +A/e:1 +A/e:1 +A/e:1 +A/e:1 +A/e:1 +A/e:1 +A/e:1\nB +B/e:1",
        "FilterTarget(Text { text: \"B/e\" })",
    ),
];

fn told(alloc: Global, answer: Result<Plan, PlanRefusal>) -> Result<String, Fail> {
    match answer {
        Ok(_) => Ok(String::new(alloc)),
        Err(refusal) => Ok(format!(in alloc; "{refusal:?}")?),
    }
}

fn refusal(alloc: Global, federates: &str) -> Result<String, Fail> {
    told(alloc, answer(alloc, federates)?)
}

fn is_refused(rt: &impl Abort, alloc: Global, federates: &str, want: &str) -> Result<(), Fail> {
    let refusal = refusal(alloc, federates)?;
    is_text(rt, refusal.as_str(), want, federates);
    Ok(())
}

#[test]
fn plans_are_made_or_refused(rt: HostRuntime) -> Result<(), Fail> {
    for (federates, want) in CASES {
        is_refused(&rt, rt.alloc(), federates, want)?;
    }
    Ok(())
}
