use super::*;
use std::fmt::Write;

// Federates, and the ancestors of each.
const ANCESTORS: [(&str, &str); 9] = [
    // a chain
    (
        "A p\nB p <A/p\nC p <B/p\nD <C/p",
        "[] [0] [0, 1] [0, 1, 2] ",
    ),
    // a diamond
    (
        "A p\nB p <A/p\nC p <A/p\nD <B/p <C/p",
        "[] [0] [0] [0, 1, 2] ",
    ),
    // a cycle, and one that hears itself
    (
        "A p <C/p\nB p <A/p\nC p <B/p\nD p <D/p",
        "[1, 2] [0, 2] [0, 1] [] ",
    ),
    // a send that is rerouted doesn't reach its target
    ("A @e>B/e +A/e:>C/e\nB @e>\nC @e>\nD @e>", "[] [] [0] [] "),
    // of two reroutes the last decides, and the sender needs no target
    (
        "A @e> +A/e:>C/e +A/e:>D/e\nB @e>\nC @e>\nD @e>",
        "[] [] [] [0] ",
    ),
    // a destination target, a source target
    ("A @e>B/e\nB @e>\nC @e<D/e\nD @e>", "[] [0] [3] [] "),
    // one that isn't targeted reaches all endpoints
    ("A @e>\nB @e\nC p\nD @e>", "[1] [] [] [1] "),
    // values and messages in one path
    (
        "A p\nB <A/p @e>D/e\nC <D/p\nD p @e>",
        "[] [0] [0, 1, 3] [0, 1] ",
    ),
    // names that mean nothing
    ("A <B/p @e>\nB @e>A/x @f<A/x\nC\nD", "[] [] [] [] "),
];

fn ancestors_of(plan: &Plan, f: u16) -> &[u16] {
    if f < plan.count() {
        plan.ancestors(f)
    } else {
        &[]
    }
}

fn tell(text: &mut String, ancestors: &[u16]) -> Result<(), Fail> {
    write!(text, "{ancestors:?} ")?;
    Ok(())
}

// The ancestors of each federate.
fn rows(alloc: Global, plan: &Plan) -> Result<String, Fail> {
    let mut text = String::new(alloc);
    for f in 0..count(plan) {
        tell(&mut text, ancestors_of(plan, f))?;
    }
    Ok(text)
}

fn have_rows(
    rt: &impl Abort,
    alloc: Global,
    plan: &Plan,
    federates: &str,
    want: &str,
) -> Result<(), Fail> {
    let rows = rows(alloc, plan)?;
    is_text(rt, rows.as_str(), want, federates);
    Ok(())
}

fn copies_have_rows(
    rt: &impl Abort,
    alloc: Global,
    plan: &Plan,
    federates: &str,
    want: &str,
) -> Result<(), Fail> {
    let copy = copy(alloc, plan)?;
    have_rows(rt, alloc, &copy, federates, want)
}

fn have_ancestors(rt: &impl Abort, alloc: Global, federates: &str, want: &str) -> Result<(), Fail> {
    let plan = plan(alloc, federates)?;
    have_rows(rt, alloc, &plan, federates, want)?;
    copies_have_rows(rt, alloc, &plan, federates, want)
}

#[test]
fn ancestors_are_those_who_reach(rt: HostRuntime) -> Result<(), Fail> {
    for (federates, want) in ANCESTORS {
        have_ancestors(&rt, rt.alloc(), federates, want)?;
    }
    Ok(())
}

// Federates, and the first two that wait for each other.
const WAITS: [(&str, Option<(u16, u16)>); 8] = [
    ("~A\n~B\n~C\n~D", None),
    // one direction only, and one that hears itself
    ("~A p\n~B p <A/p\n~C <B/p\n~D p <A/p <D/p", None),
    // a pair
    ("~A <B/p\n~B p <C/p\n~C p <B/p\n~D <A/p", Some((1, 2))),
    // one of them doesn't wait
    ("~A p <B/p\nB p <A/p\n~C\n~D", None),
    ("A p <B/p\n~B p <A/p\n~C\n~D", None),
    // two pairs
    ("~A p <D/p\n~B p <C/p\n~C p <B/p\n~D p <A/p", Some((0, 3))),
    // by way of one that doesn't wait
    ("~A p <D/p\nB p <A/p\n~C p <B/p\n~D p <C/p", Some((0, 2))),
    // a cycle of messages
    ("~A @e>\n~B @e>C/e\n~C @e>B/e\n~D @e>", Some((1, 2))),
];

fn is_first_pair(rt: &impl Abort, plan: &Plan, pair: Option<(u16, u16)>, federates: &str) {
    assert_eq!(rt; plan.wait_cycle(), pair, "{federates}");
}

fn have_pair(
    rt: &impl Abort,
    alloc: Global,
    federates: &str,
    pair: Option<(u16, u16)>,
) -> Result<(), Fail> {
    let plan = plan(alloc, federates)?;
    is_first_pair(rt, &plan, pair, federates);
    Ok(())
}

#[test]
fn the_first_pair_that_waits(rt: HostRuntime) -> Result<(), Fail> {
    for (federates, pair) in WAITS {
        have_pair(&rt, rt.alloc(), federates, pair)?;
    }
    Ok(())
}

// Whether one endpoint may send to another, where both are there.
fn may_send(plan: &Plan, from: &str, to: &str) -> Option<bool> {
    let from = endpoint_of(plan, from)?;
    let to = endpoint_of(plan, to)?;
    Some(plan.may_send(from, to))
}

// Two endpoints, and whether the one may send to the other.
const SENDERS: [(&str, &str, Option<bool>); 10] = [
    ("A/e", "A/e", Some(true)),
    ("A/e", "B/s", Some(true)),
    ("A/t", "B/e", Some(true)),
    ("A/t", "B/s", Some(true)),
    ("A/t", "B/x", Some(false)),
    ("A/t", "A/t", Some(false)),
    ("B/s", "A/t", Some(false)),
    ("B/x", "A/t", Some(true)),
    ("B/x", "B/y", None),
    ("e", "B/e", None),
];

fn sends(rt: &impl Abort, plan: &Plan, from: &str, to: &str, may: Option<bool>) {
    assert_eq!(rt; may_send(plan, from, to), may, "{from} {to}");
}

fn send_to_few(rt: &impl Abort, plan: &Plan) {
    for (from, to, may) in SENDERS {
        sends(rt, plan, from, to, may);
    }
}

#[test]
fn targeted_endpoints_send_to_few(rt: HostRuntime) -> Result<(), Fail> {
    let plan = plan(rt.alloc(), "A @e @t>B/e\nB @e @s<A/t @x")?;
    let copy = copy(rt.alloc(), &plan)?;
    send_to_few(&rt, &plan);
    send_to_few(&rt, &copy);
    Ok(())
}
