ghost use Rattle.std.specs.Prelude.{ℕ, ◌≡◌, ◌<◌, ◌↔◌, IsTrue, IfOk, length};
ghost use Rattle.hel_lists.specs.Members.{Each};
ghost use Rattle.federation_plan.specs.declared.tree.NodeKind.TheVariants.{Core as CoreKind};
ghost use Rattle.federation_plan.specs.Tree.{IsPlaced, IsValid, kind_at, node_at, above, parents_of};

use hel_lists::{Copied, Items, OutOfMemory, Text};
use std::alloc::Global;

/// What a node of the tree is.
#[derive(Clone, Copy, Debug, PartialEq, Eq)]
pub enum NodeKind {
    /// The broker above all others.
    Root,
    Broker,
    /// A core: federates stand at it.
    Core,
}

/// A node of the tree. What stands as the root's parent says nothing.
#[derive(Debug, Drop)]
pub struct NodeRow {
    pub name: Text,
    pub parent: u16,
    pub kind: NodeKind,
}

/// The nodes, numbered from 0, and for each federate the core at which it stands.
#[derive(Debug, Drop)]
pub struct Tree {
    pub nodes: Items<NodeRow>,
    pub cores: Items<u16>,
}

/// The most nodes of a tree.
pub const NODE_LIMIT: usize = 128;

impl Tree {
    /// Whether node 0 alone is the root, each other node has a root or broker of a lower number for
    /// its parent, there are at most 128 nodes, and each entry of `cores` is a core (docs/RULES.md,
    /// Trees).
    pub fn valid(&self) -> bool
        ensures { IsTrue result ↔ IsValid self.now }
    {
        let nodes = self.nodes.as_slice();
        !nodes.is_empty()
            && nodes.len() <= NODE_LIMIT
            && are_placed(nodes)
            && are_cores(nodes, self.cores.as_slice())
    }
}

fn are_placed(nodes: &[NodeRow]) -> bool
    ensures { IsTrue result ↔ ((z : ℕ) → z < length nodes.now → IsPlaced nodes.now z) }
{
    for (number, row) in nodes.iter().enumerate() {
        if !is_placed(nodes, number, row) {
            return false;
        }
    }
    true
}

fn is_placed(nodes: &[NodeRow], number: usize, row: &NodeRow) -> bool
    requires { (number < length nodes.now) × (node_at nodes.now number ≡ row.now) }
    ensures { IsTrue result ↔ IsPlaced nodes.now number }
{
    if number == 0 {
        return row.kind == NodeKind::Root;
    }
    let parent = row.parent as usize;
    row.kind != NodeKind::Root && parent < number && nodes[parent].kind != NodeKind::Core
}

fn are_cores(nodes: &[NodeRow], cores: &[u16]) -> bool
    ensures { IsTrue result ↔ Each (λ c. kind_at nodes.now c ≡ CoreKind) cores.now }
{
    for core in cores {
        if !is_core(nodes, *core) {
            return false;
        }
    }
    true
}

/// Whether this is the number of a core.
pub(crate) fn is_core(nodes: &[NodeRow], number: u16) -> bool
    ensures { IsTrue result ↔ (kind_at nodes.now number ≡ CoreKind) }
{
    match nodes.get(number as usize) {
        Some(row) => row.kind == NodeKind::Core,
        None => false,
    }
}

/// The parents of all nodes; that of the root is 0.
pub(crate) fn parents(alloc: Global, nodes: &[NodeRow]) -> Result<Items<u16>, OutOfMemory>
    ensures { IfOk result (λ numbers. numbers ≡ parents_of nodes.now) }
{
    let mut numbers = Items::new(alloc);
    for row in nodes {
        numbers.push(row.above())?;
    }
    Ok(numbers)
}

impl NodeRow {
    // The parent, 0 for the root.
    fn above(&self) -> u16
        ensures { result ≡ above self.now }
    {
        match self.kind {
            NodeKind::Root => 0,
            _ => self.parent,
        }
    }
}

impl Copied for NodeRow {
    fn copy(&self, alloc: Global) -> Result<Self, OutOfMemory> {
        Ok(NodeRow {
            name: self.name.copy(alloc)?,
            parent: self.parent,
            kind: self.kind,
        })
    }
}

impl Copied for Tree {
    fn copy(&self, alloc: Global) -> Result<Self, OutOfMemory> {
        Ok(Tree {
            nodes: self.nodes.copy(alloc)?,
            cores: self.cores.copy(alloc)?,
        })
    }
}
