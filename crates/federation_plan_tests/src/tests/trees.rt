use super::*;
use NodeKind::{Broker, Core, Root};
use tree_facts::Hop;

// Nodes by their parents and kinds, the cores of federates, and whether that is a tree.
const TREES: [(&[(u16, NodeKind)], &[u16], bool); 11] = [
    (&[(0, Root)], &[], true),
    (&[(9, Root), (0, Core)], &[1, 1], true),
    (
        &[(0, Root), (0, Broker), (1, Broker), (2, Core)],
        &[3],
        true,
    ),
    (&[], &[], false),
    (&[(0, Broker)], &[], false),
    (&[(0, Root), (0, Root)], &[], false),
    // a parent of a higher number, of the same one, below a core
    (&[(0, Root), (2, Core), (0, Broker)], &[], false),
    (&[(0, Root), (1, Broker)], &[], false),
    (&[(0, Root), (0, Core), (1, Core)], &[], false),
    // a federate at a broker, at no node
    (&[(0, Root), (0, Broker)], &[1], false),
    (&[(0, Root), (0, Core)], &[2], false),
];

fn nodes(alloc: Global, rows: &[(u16, NodeKind)]) -> Result<Items<NodeRow>, Fail> {
    let mut nodes = Items::new(alloc);
    for (parent, kind) in rows {
        grow(alloc, &mut nodes, *parent, *kind)?;
    }
    Ok(nodes)
}

fn tree(alloc: Global, nodes: Items<NodeRow>, cores: &[u16]) -> Result<Tree, Fail> {
    Ok(Tree {
        nodes,
        cores: Items::from_vec(Vec::from_slice(alloc, cores)?),
    })
}

fn is_valid(rt: &impl Abort, tree: &Tree, want: bool, cores: &[u16]) {
    assert_eq!(rt; tree.valid(), want, "{cores:?}");
}

fn small(alloc: Global, rows: &[(u16, NodeKind)], cores: &[u16]) -> Result<Tree, Fail> {
    let nodes = nodes(alloc, rows)?;
    tree(alloc, nodes, cores)
}

fn is_tree(
    rt: &impl Abort,
    alloc: Global,
    rows: &[(u16, NodeKind)],
    cores: &[u16],
    want: bool,
) -> Result<(), Fail> {
    let tree = small(alloc, rows, cores)?;
    is_valid(rt, &tree, want, cores);
    Ok(())
}

#[test]
fn trees_are_valid_or_not(rt: HostRuntime) -> Result<(), Fail> {
    for (rows, cores, valid) in TREES {
        is_tree(&rt, rt.alloc(), rows, cores, valid)?;
    }
    Ok(())
}

// A root, brokers at three depths, of which each but the lowest has three below it, and cores below the
// 27 lowest, by turns.
fn deep_tree(alloc: Global, count: u16, cores: &[u16]) -> Result<Tree, Fail> {
    let mut nodes = Items::new(alloc);
    grow(alloc, &mut nodes, 0, Root)?;
    grow_brokers(alloc, &mut nodes)?;
    grow_cores(alloc, &mut nodes, count)?;
    tree(alloc, nodes, cores)
}

fn grow_brokers(alloc: Global, nodes: &mut Items<NodeRow>) -> Result<(), Fail> {
    for z in 1..40 {
        grow(alloc, nodes, (z - 1) / 3, Broker)?;
    }
    Ok(())
}

fn grow_cores(alloc: Global, nodes: &mut Items<NodeRow>, count: u16) -> Result<(), Fail> {
    for z in 40..count {
        grow(alloc, nodes, 13 + (z - 40) % 27, Core)?;
    }
    Ok(())
}

fn is_deep_tree(rt: &impl Abort, alloc: Global, count: u16, want: bool) -> Result<(), Fail> {
    let tree = deep_tree(alloc, count, &[127])?;
    is_valid(rt, &tree, want, &[count]);
    Ok(())
}

#[test]
fn a_tree_has_no_more_than_128_nodes(rt: HostRuntime) -> Result<(), Fail> {
    is_deep_tree(&rt, rt.alloc(), 128, true)?;
    is_deep_tree(&rt, rt.alloc(), 129, false)
}

const CORES: [u16; 4] = [40, 66, 67, 127];

fn route(plan: &Plan, node: u16, f: u16) -> Option<Hop> {
    if usize::from(node) < plan.tree().nodes.len() && f < plan.count() {
        Some(plan.route(node, f))
    } else {
        None
    }
}

fn core_of(plan: &Plan, f: u16) -> Option<u16> {
    if f < plan.count() {
        Some(plan.core_of(f))
    } else {
        None
    }
}

// A node, a federate, and the next hop from the one to the core of the other.
const ROUTES: [(u16, u16, Hop); 19] = [
    // down to core 40 by 1, 4 and 13
    (0, 0, Hop::Child(1)),
    (1, 0, Hop::Child(4)),
    (4, 0, Hop::Child(13)),
    (13, 0, Hop::Child(40)),
    (40, 0, Hop::Here),
    // up from elsewhere
    (67, 0, Hop::Up),
    (2, 0, Hop::Up),
    (14, 0, Hop::Up),
    (127, 0, Hop::Up),
    // core 66 stands below 3, 12 and 39
    (0, 1, Hop::Child(3)),
    (3, 1, Hop::Child(12)),
    (12, 1, Hop::Child(39)),
    (11, 1, Hop::Up),
    // core 67 stands beside core 40
    (13, 2, Hop::Child(67)),
    (40, 2, Hop::Up),
    // core 127 stands below 1, 6 and 19
    (1, 3, Hop::Child(6)),
    (6, 3, Hop::Child(19)),
    (19, 3, Hop::Child(127)),
    (4, 3, Hop::Up),
];

fn has_core(rt: &impl Abort, plan: &Plan, f: u16, core: u16) {
    assert_eq!(rt; core_of(plan, f), Some(core), "{f}");
}

fn have_cores(rt: &impl Abort, plan: &Plan) {
    for (f, core) in CORES.iter().enumerate() {
        has_core(rt, plan, f as u16, *core);
    }
}

fn has_route(rt: &impl Abort, plan: &Plan, node: u16, f: u16, hop: Hop) {
    assert_eq!(rt; route(plan, node, f), Some(hop), "{node} {f}");
}

fn have_routes(rt: &impl Abort, plan: &Plan) {
    for (node, f, hop) in ROUTES {
        has_route(rt, plan, node, f, hop);
    }
}

fn deep_plan(alloc: Global) -> Result<Plan, Fail> {
    let registry = registry(alloc, "A\nB\nC\nD")?;
    let tree = deep_tree(alloc, 128, &CORES)?;
    made(built(alloc, &registry, tree)?)
}

#[test]
fn routes_lead_to_the_cores(rt: HostRuntime) -> Result<(), Fail> {
    let plan = deep_plan(rt.alloc())?;
    have_cores(&rt, &plan);
    have_routes(&rt, &plan);
    Ok(())
}
