//! The nodes of a tree, and what may be wrong with them (docs/RULES.md, Trees).
ghost use Rattle.std.specs.Prelude.{◌≡◌, ◌+◌, ◌≤◌, ◌<◌, ◌^◌, ◌++◌, IfOk, IfSome, OnOk, true, length, map, unwrap_or};
ghost use Rattle.federation_plan.specs.Tree.{most_nodes};
ghost use Rattle.runner_config.specs.Names.{are_different};
ghost use Rattle.runner_config.specs.Nodes.{names_of, parent_of, are_known, core_of, has_parents, has_cores, cause_by, rows_from, nodes_of, IsNodes, Made};

use crate::entries::Listed;
use crate::names::Names;
use crate::refusal::TreeCause;
use crate::shape::{NodeText, TreeText};
use federation_plan::{NODE_LIMIT, NodeKind, NodeRow};
use hel_lists::{Copied, Items, OutOfMemory, Text};
use std::alloc::Global;

// The name of node 0.
const ROOT: &str = "root";

fn add_names(alloc: Global, names: &mut Items<Text>, nodes: &[NodeText]) -> Result<(), OutOfMemory>
    ensures { OnOk result (names.new ≡ names.old ++ map (λ n. n.name) nodes.now) }
{
    for node in nodes {
        names.push(node.name.copy(alloc)?)?;
    }
    Ok(())
}

// The names of all nodes, in the order of their numbers.
fn names_of(alloc: Global, tree: &TreeText) -> Result<Items<Text>, OutOfMemory>
    ensures { IfOk result (λ names. names ≡ names_of tree.now) }
{
    let mut names = Items::new(alloc);
    names.push(Text::from_str(alloc, ROOT)?)?;
    add_names(alloc, &mut names, tree.brokers.as_slice())?;
    add_names(alloc, &mut names, tree.cores.as_slice())?;
    Ok(names)
}

// The number of the root or broker of that name, where it is below a node's own.
fn parent_of(names: &Names, brokers: usize, number: usize, parent: &str) -> Option<usize>
    ensures parent { result ≡ parent_of names.now brokers number parent.now }
    ensures within { IfSome result (λ p. p < length names.now) }
{
    match names.place(parent) {
        Some(place) if place < number && place <= brokers => Some(place),
        _ => None,
    }
}

// Whether nodes, the first of which has this number, have parents.
fn are_known(names: &Names, brokers: usize, first: usize, nodes: &[NodeText]) -> bool
    requires { first + length nodes.now < 2 ^ 64 }
    ensures { result ≡ are_known names.now brokers first nodes.now }
{
    for (place, node) in nodes.iter().enumerate() {
        if parent_of(names, brokers, first + place, node.parent.as_str()).is_none() {
            return false;
        }
    }
    true
}

// The number of the core of that name, and of the first core without a name.
fn core_of(names: &Names, brokers: usize, core: &Option<Text>) -> Option<usize>
    requires { brokers < 2 ^ 63 }
    ensures { result ≡ core_of names.now brokers core.now }
{
    let Some(core) = core else {
        return Some(brokers + 1);
    };
    match names.place(core.as_str()) {
        Some(place) if place > brokers => Some(place),
        _ => None,
    }
}

fn have_cores(names: &Names, brokers: usize, entries: &[Listed]) -> bool
    requires { brokers < 2 ^ 63 }
    ensures { result ≡ has_cores names.now brokers entries.now }
{
    for entry in entries {
        if core_of(names, brokers, &entry.core).is_none() {
            return false;
        }
    }
    true
}

// Whether each broker and core has a parent.
fn have_parents(names: &Names, tree: &TreeText) -> bool
    requires { length tree.now.brokers + length tree.now.cores < 2 ^ 63 }
    ensures { result ≡ has_parents names.now tree.now }
{
    let brokers = tree.brokers.len();
    are_known(names, brokers, 1, tree.brokers.as_slice())
        && are_known(names, brokers, 1 + brokers, tree.cores.as_slice())
}

// Why a tree is refused, by the names of its nodes, of which each stands once.
fn cause_by(names: &Names, tree: &TreeText, entries: &[Listed]) -> Option<TreeCause>
    requires { length tree.now.brokers + length tree.now.cores < 2 ^ 63 }
    ensures { result ≡ cause_by names.now tree.now entries.now }
{
    if !have_parents(names, tree) {
        return Some(TreeCause::UnknownParent);
    }
    if !have_cores(names, tree.brokers.len(), entries) {
        return Some(TreeCause::UnknownCore);
    }
    if names.len() > NODE_LIMIT {
        return Some(TreeCause::TooManyNodes);
    }
    None
}

/// A tree in which nothing is wrong, and the names of its nodes.
#[derive(Drop)]
pub struct Nodes {
    names: Names,
    tree: TreeText,
}

impl Nodes {
    /// The nodes of a tree under some entries, or why it is refused.
    #[tactic(auto, unfolding(crate::specs::Nodes::cause_of))]
    pub fn of(
        alloc: Global,
        tree: TreeText,
        entries: &[Listed],
    ) -> Result<Result<Nodes, TreeCause>, OutOfMemory>
        ensures { IfOk result (λ made. Made tree entries.now made) }
    {
        let names = names_of(alloc, &tree)?;
        let Some(names) = Names::of(alloc, names.as_slice())? else {
            return Ok(Err(TreeCause::NameTwice));
        };
        match cause_by(&names, &tree, entries) {
            Some(cause) => Ok(Err(cause)),
            None => Ok(Ok(Nodes { names, tree })),
        }
    }

    /// The number of the core of an entry.
    pub fn core_of(&self, core: &Option<Text>) -> u16
        requires { IsNodes self.now }
        ensures { result ≡ unwrap_or (core_of self.now.names (length self.now.tree.brokers) core.now) 0 }
    {
        match core_of(&self.names, self.tree.brokers.len(), core) {
            Some(core) => core as u16,
            None => 0,
        }
    }

    // Puts the nodes of one kind behind the others.
    fn add_rows(
        &self,
        alloc: Global,
        rows: &mut Items<NodeRow>,
        kind: NodeKind,
        nodes: &[NodeText],
    ) -> Result<(), OutOfMemory>
        requires is { IsNodes self.now }
        requires few { length rows.old + length nodes.now ≤ most_nodes }
        ensures { OnOk result (rows.new ≡ rows.old ++ rows_from self.now.names (length self.now.tree.brokers) kind (length rows.old) nodes.now) }
    {
        let brokers = self.tree.brokers.len();
        let first = rows.len();
        for (place, node) in nodes.iter().enumerate() {
            let parent = parent_of(&self.names, brokers, first + place, node.parent.as_str());
            rows.push(NodeRow {
                name: node.name.copy(alloc)?,
                parent: parent.unwrap_or(0) as u16,
                kind,
            })?;
        }
        Ok(())
    }

    /// The nodes, in the order of their numbers.
    #[tactic(auto, using(crate::proofs::Rows::rows_length, crate::proofs::Rows::names_length), unfolding(crate::specs::Nodes::nodes_of))]
    pub fn rows(&self, alloc: Global) -> Result<Items<NodeRow>, OutOfMemory>
        requires { IsNodes self.now }
        ensures { IfOk result (λ rows. rows ≡ nodes_of self.now.tree) }
    {
        let mut rows = Items::new(alloc);
        rows.push(NodeRow {
            name: Text::from_str(alloc, ROOT)?,
            parent: 0,
            kind: NodeKind::Root,
        })?;
        self.add_rows(
            alloc,
            &mut rows,
            NodeKind::Broker,
            self.tree.brokers.as_slice(),
        )?;
        self.add_rows(alloc, &mut rows, NodeKind::Core, self.tree.cores.as_slice())?;
        Ok(rows)
    }
}
