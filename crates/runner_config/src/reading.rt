//! A runner file, read whole (docs/FORMATS.md, Runner file).
ghost use Rattle.std.specs.Prelude.{◌≡◌, ◌<◌, IfOk, None, length, map, option_map};
ghost use Rattle.serde_json.specs.View.{view, items_view};
ghost use Rattle.json_reading.specs.Keys.{pairs_of};
ghost use Rattle.federation_plan.specs.Tree.{IsValid};
ghost use Rattle.runner_config.specs.Told.{Gives, Answers};
ghost use Rattle.runner_config.specs.Nodes.{IsNodes, cause_of};
ghost use Rattle.runner_config.specs.Entries.{AreInOrder};
ghost use Rattle.runner_config.specs.Runner.{federates_of, check_count, list_of, entry_in, runner_with, runner_in, runner_of, tree_with, InOrder};

use crate::counts::{counts_other, is_broker};
use crate::entries::{Listed, entries, has_federate, sole};
use crate::nodes::Nodes;
use crate::refusal::{RunnerRefusal, TreeCause};
use crate::shape::tree_of;
use federation_plan::NodeRow;
use hel_lists::{Items, OutOfMemory, Text};
use json_reading::{Object, as_object, parse};
use serde_json::Value;
use std::alloc::Global;

/// A federate's entry.
#[derive(Debug, Drop)]
pub struct Entry {
    pub name: Text,
    /// The words of `exec`, at least one.
    pub words: Items<Text>,
    /// As the entry spells it, and `.` without it.
    pub directory: Text,
    /// The number of its core among the nodes.
    pub core: u16,
    /// The path of its federate file, where the entry says one.
    pub config: Option<Text>,
    /// The entry's place in the file's list, from 0.
    pub place: u64,
}

/// What a runner file says: the nodes of the tree by their numbers, and the entries of the federates,
/// at least one.
#[derive(Debug, Drop)]
pub struct Runner {
    pub nodes: Items<NodeRow>,
    pub entries: Items<Entry>,
}

/// What the bytes of a runner file say, or the first refusal (docs/FORMATS.md, Runner file). The
/// nodes and the cores of the entries are a valid tree, and the places of the entries rise.
#[tactic(auto, unfolding(crate::specs::Runner::runner_of))]
pub fn read_runner(alloc: Global, bytes: &[u8]) -> Result<Runner, RunnerRefusal>
    ensures told { Answers result (runner_of bytes.now) }
    ensures valid { IfOk result (λ r. IsValid (tree_with r)) }
    ensures places { IfOk result (λ r. InOrder r.entries) }
{
    let Some(value) = parse(alloc, bytes)? else {
        return Err(RunnerRefusal::NotJson);
    };
    read_value(alloc, &value)
}

#[tactic(auto, unfolding(crate::specs::Runner::runner_in))]
fn read_value(alloc: Global, value: &Value) -> Result<Runner, RunnerRefusal>
    ensures told { Gives (λ r. r) result (runner_in (view value.now)) }
    ensures valid { IfOk result (λ r. IsValid (tree_with r)) }
    ensures places { IfOk result (λ r. InOrder r.entries) }
{
    let Some(object) = as_object(value) else {
        return Err(RunnerRefusal::NotAnObject);
    };
    let Some(list) = list_of(alloc, object)? else {
        return Err(RunnerRefusal::NoFederates);
    };
    let entries = entries(alloc, list)?;
    let Some(tree) = tree_of(alloc, object)? else {
        return Err(RunnerRefusal::BadTree(TreeCause::Shape));
    };
    let nodes = match Nodes::of(alloc, tree, entries.as_slice())? {
        Ok(nodes) => nodes,
        Err(cause) => return Err(RunnerRefusal::BadTree(cause)),
    };
    check_count(entries.as_slice())?;
    let runner = runner_with(alloc, &nodes, entries)?;
    Ok(runner)
}

// What a file says of a good tree.
fn runner_with(alloc: Global, nodes: &Nodes, entries: Items<Listed>) -> Result<Runner, OutOfMemory>
    requires is { IsNodes nodes.now }
    requires cores { 0 < length nodes.now.tree.cores }
    requires fits { cause_of nodes.now.tree entries ≡ None }
    requires places { AreInOrder entries }
    ensures is { IfOk result (λ r. r ≡ runner_with nodes.now.tree entries) }
    ensures valid { IfOk result (λ r. IsValid (tree_with r)) }
    ensures places { IfOk result (λ r. InOrder r.entries) }
{
    let rows = nodes.rows(alloc)?;
    let found = federates(alloc, nodes, entries)?;
    Ok(Runner {
        nodes: rows,
        entries: found,
    })
}

// The list of federates.
fn list_of(alloc: Global, object: &Object) -> Result<Option<&[Value]>, OutOfMemory>
    ensures { IfOk result (λ list. option_map (λ vs. items_view vs.now) list ≡ list_of (pairs_of object.now.entries)) }
{
    let Some(value) = sole(object, "federates") else {
        return Ok(None);
    };
    let Some(list) = value.as_array() else {
        return Ok(None);
    };
    if has_federate(alloc, list.as_slice())? {
        Ok(Some(list.as_slice()))
    } else {
        Ok(None)
    }
}

fn federate_count(entries: &[Listed]) -> usize
    ensures { result ≡ length (federates_of entries.now) }
{
    entries
        .iter()
        .filter(|entry| !is_broker(entry.words.as_slice()))
        .count()
}

// Whether the broker, where there is one, counts as many federates as there are.
fn check_count(entries: &[Listed]) -> Result<(), RunnerRefusal>
    ensures { result ≡ check_count entries.now }
{
    let count = federate_count(entries) as u64;
    for entry in entries {
        if is_broker(entry.words.as_slice()) {
            return if counts_other(count, entry.words.as_slice()) {
                Err(RunnerRefusal::BrokerCount(entry.place))
            } else {
                Ok(())
            };
        }
    }
    Ok(())
}

fn federates(
    alloc: Global,
    nodes: &Nodes,
    entries: Items<Listed>,
) -> Result<Items<Entry>, OutOfMemory>
    requires { IsNodes nodes.now }
    ensures { IfOk result (λ all. all ≡ map (entry_in nodes.now.tree) (federates_of entries)) }
{
    let mut found = Items::new(alloc);
    for listed in entries.into_vec() {
        if !is_broker(listed.words.as_slice()) {
            found.push(entry_in(nodes, listed))?;
        }
    }
    Ok(found)
}

fn entry_in(nodes: &Nodes, listed: Listed) -> Entry
    requires { IsNodes nodes.now }
    ensures { result ≡ entry_in nodes.now.tree listed }
{
    let Listed {
        place,
        name,
        words,
        directory,
        core,
        config,
    } = listed;
    Entry {
        name,
        words,
        directory,
        core: nodes.core_of(&core),
        config,
        place,
    }
}
