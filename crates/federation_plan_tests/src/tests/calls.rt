ghost use Rattle.std.specs.Prelude.{IsTrue};
ghost use Rattle.federation_plan.specs.Interfaces.{IsEndpoint, IsPublication};

use super::*;
use federation_plan::{endpoint_name, federate_name, publication_name};
use hel_values::Value;
use machine_laws::CallRefusal;

const FEDERATES: &str = "A @e=B/e @f @t>B/e @g=B/y p q:t\nB @e <A/q";

const B_E: Option<EndRef> = Some(EndRef { fed: 1, index: 0 });

// The endpoint of A with this number sends to a name: what it means, and why the send is refused.
const SENDS: [(u16, &str, Option<EndRef>, Option<CallRefusal>); 9] = [
    (0, "B/e", B_E, None),
    (0, "", B_E, None),
    (0, "A/f", Some(EndRef { fed: 0, index: 1 }), None),
    (0, "B/y", None, Some(CallRefusal::UnknownEndpoint)),
    (1, "", None, Some(CallRefusal::UnknownEndpoint)),
    (3, "", None, Some(CallRefusal::UnknownEndpoint)),
    (2, "B/e", B_E, None),
    (
        2,
        "A/f",
        Some(EndRef { fed: 0, index: 1 }),
        Some(CallRefusal::NotATarget),
    ),
    (4, "B/e", None, Some(CallRefusal::NotOwner)),
];

fn destined(plan: &Plan, from: EndRef, name: &str) -> Option<EndRef> {
    if is_endpoint(plan, from) {
        plan.destined(from, name)
    } else {
        None
    }
}

fn is_endpoint(plan: &Plan, at: EndRef) -> bool
    ensures { IsTrue result → IsEndpoint plan.now.federates at }
{
    at.fed < plan.count() && usize::from(at.index) < plan.federate(at.fed).endpoints.len()
}

fn is_publication(plan: &Plan, at: EndRef) -> bool
    ensures { IsTrue result → IsPublication plan.now.federates at }
{
    at.fed < plan.count() && usize::from(at.index) < plan.federate(at.fed).publications.len()
}

fn refused(plan: &Plan, from: EndRef, name: &str) -> Option<CallRefusal> {
    if from.fed < plan.count() {
        plan.send_objection(from, name)
    } else {
        None
    }
}

fn means(rt: &impl Abort, plan: &Plan, index: u16, name: &str, end: Option<EndRef>) {
    assert_eq!(rt;
        destined(plan, EndRef { fed: 0, index }, name),
        end,
        "{index} {name}"
    );
}

fn is_refused(
    rt: &impl Abort,
    plan: &Plan,
    index: u16,
    name: &str,
    objection: Option<CallRefusal>,
) {
    assert_eq!(rt;
        refused(plan, EndRef { fed: 0, index }, name),
        objection,
        "{index} {name}"
    );
}

fn are_refused(rt: &impl Abort, plan: &Plan) {
    for (index, name, end, objection) in SENDS {
        means(rt, plan, index, name, end);
        is_refused(rt, plan, index, name, objection);
    }
}

#[test]
fn sends_are_refused_for_a_reason(rt: HostRuntime) -> Result<(), Fail> {
    let plan = plan(rt.alloc(), FEDERATES)?;
    are_refused(&rt, &plan);
    Ok(())
}

// A publication, and why it doesn't take a number.
const NUMBERS: [(u16, u16, Option<CallRefusal>); 4] = [
    (0, 0, None),
    (0, 1, Some(CallRefusal::KindMismatch)),
    (0, 2, Some(CallRefusal::NotOwner)),
    (1, 0, Some(CallRefusal::NotOwner)),
];

fn refused_number(plan: &Plan, fed: u16, index: u16) -> Option<CallRefusal> {
    if fed < plan.count() {
        plan.publish_objection(EndRef { fed, index }, &Value::Int(7))
    } else {
        Some(CallRefusal::UnknownEndpoint)
    }
}

fn takes(rt: &impl Abort, plan: &Plan, fed: u16, index: u16, want: Option<CallRefusal>) {
    assert_eq!(rt; refused_number(plan, fed, index), want, "{fed} {index}");
}

fn take_their_kind(rt: &impl Abort, plan: &Plan) {
    for (fed, index, objection) in NUMBERS {
        takes(rt, plan, fed, index, objection);
    }
}

#[test]
fn publications_take_their_kind(rt: HostRuntime) -> Result<(), Fail> {
    let plan = plan(rt.alloc(), FEDERATES)?;
    take_their_kind(&rt, &plan);
    Ok(())
}

fn targets(plan: &Plan, publication: EndRef) -> &[EndRef] {
    if is_publication(plan, publication) {
        plan.targets(publication)
    } else {
        &[]
    }
}

fn has_no_target(rt: &impl Abort, plan: &Plan) {
    assert!(rt; targets(plan, EndRef { fed: 0, index: 0 }).is_empty());
}

fn has_one_target(rt: &impl Abort, plan: &Plan) {
    let inputs = targets(plan, EndRef { fed: 0, index: 1 });
    assert!(rt; inputs == [EndRef { fed: 1, index: 0 }].as_slice());
}

#[test]
fn publications_have_targets(rt: HostRuntime) -> Result<(), Fail> {
    let plan = plan(rt.alloc(), FEDERATES)?;
    has_no_target(&rt, &plan);
    has_one_target(&rt, &plan);
    Ok(())
}

const GLOBALS: &str = "A @e @f @t @g p q\nB @e /k\nC @/h";

// The interface of a federate's number and its own, and what the federation calls it as an endpoint
// and as a publication: blank is what isn't there.
const CALLED: [(u16, u16, &str, &str); 6] = [
    (0, 1, "A/f", "A/q"),
    (0, 3, "A/g", "A/"),
    (0, 9, "A/", "A/"),
    (1, 0, "B/e", "k"),
    (2, 0, "h", "C/"),
    (7, 0, "/", "/"),
];

fn is_endpoint_name(
    rt: &impl Abort,
    alloc: Global,
    federates: &[FederateRecord],
    at: EndRef,
    wanted: &str,
) -> Result<(), Fail> {
    let name = endpoint_name(alloc, federates, at)?;
    assert_eq!(rt; name.as_str(), wanted);
    Ok(())
}

fn is_publication_name(
    rt: &impl Abort,
    alloc: Global,
    federates: &[FederateRecord],
    at: EndRef,
    wanted: &str,
) -> Result<(), Fail> {
    let name = publication_name(alloc, federates, at)?;
    assert_eq!(rt; name.as_str(), wanted);
    Ok(())
}

fn have_names(rt: &impl Abort, alloc: Global, federates: &[FederateRecord]) -> Result<(), Fail> {
    for (fed, index, endpoint, publication) in CALLED {
        let at = EndRef { fed, index };
        is_endpoint_name(rt, alloc, federates, at, endpoint)?;
        is_publication_name(rt, alloc, federates, at, publication)?;
    }
    assert!(rt; federate_name(federates, 1) == "B");
    assert!(rt; federate_name(federates, 3).is_empty());
    Ok(())
}

#[test]
fn interfaces_have_names(rt: HostRuntime) -> Result<(), Fail> {
    let plan = plan(rt.alloc(), GLOBALS)?;
    have_names(&rt, rt.alloc(), plan.federates())
}
