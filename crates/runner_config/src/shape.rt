//! The tree as a runner file spells it (docs/FORMATS.md, Runner file).
ghost use Rattle.std.specs.Prelude.{◌≡◌, ◌<◌, IfOk, IfSome, length};
ghost use Rattle.serde_json.specs.View.{view};
ghost use Rattle.json_reading.specs.Keys.{pairs_of};
ghost use Rattle.runner_config.specs.Shape.{default_tree, tree_in, tree_of};

use hel_lists::{Items, OutOfMemory, Text};
use json_reading::{
    AnyText, ConfigCause, ConfigRefusal, ListOf, Object, Reader, has_doubled, member, members,
    needed, optional,
};
use serde_json::Value;
use std::alloc::Global;

/// A node as it is spelled: its name, and that of its parent.
#[derive(Drop)]
pub struct NodeText {
    pub name: Text,
    pub parent: Text,
}

/// A tree as it is spelled.
#[derive(Drop)]
pub struct TreeText {
    pub brokers: Items<NodeText>,
    pub cores: Items<NodeText>,
}

// Reads a node. Without a parent it is the root's child.
#[derive(Clone, Copy)]
struct NodeReader;

impl Reader for NodeReader {
    ghost use Rattle.runner_config.specs.Shape.{node_of};

    type Output = NodeText;

    ghost reads = { λ reader. node_of };

    #[tactic(auto, unfolding(crate::specs::Shape::node_of))]
    fn read(&self, alloc: Global, value: &Value) -> Result<NodeText, ConfigRefusal> {
        let object = members(alloc, value, &["name", "parent"])?;
        let name = needed(alloc, object, "name", &AnyText)?;
        let parent = match optional(alloc, object, "parent", &AnyText)? {
            Some(parent) => parent,
            None => match Text::from_str(alloc, "root") {
                Ok(root) => root,
                Err(OutOfMemory) => return Err(ConfigRefusal::memory(alloc)),
            },
        };
        Ok(NodeText { name, parent })
    }
}

// Reads a tree.
#[derive(Clone, Copy)]
struct TreeReader;

impl Reader for TreeReader {
    ghost use Rattle.runner_config.specs.Shape.{tree_text_of};

    type Output = TreeText;

    ghost reads = { λ reader. tree_text_of };

    #[tactic(auto, unfolding(crate::specs::Shape::tree_text_of))]
    fn read(&self, alloc: Global, value: &Value) -> Result<TreeText, ConfigRefusal> {
        let object = members(alloc, value, &["brokers", "cores"])?;
        let nodes = ListOf { reader: NodeReader };
        let brokers = needed(alloc, object, "brokers", &nodes)?;
        let cores = needed(alloc, object, "cores", &nodes)?;
        Ok(TreeText { brokers, cores })
    }
}

// The root and one core.
fn default_tree(alloc: Global) -> Result<TreeText, OutOfMemory>
    ensures { IfOk result (λ t. t ≡ default_tree) }
{
    let mut cores = Items::new(alloc);
    cores.push(NodeText {
        name: Text::from_str(alloc, "core")?,
        parent: Text::from_str(alloc, "root")?,
    })?;
    Ok(TreeText {
        brokers: Items::new(alloc),
        cores,
    })
}

fn tree_in(alloc: Global, value: &Value) -> Result<Option<TreeText>, OutOfMemory>
    ensures is { IfOk result (λ t. t ≡ tree_in (view value.now)) }
    ensures some { IfOk result (λ t. IfSome t (λ t. 0 < length t.cores)) }
{
    match TreeReader.read(alloc, value) {
        Ok(tree) if tree.cores.is_empty() => Ok(None),
        Ok(tree) => Ok(Some(tree)),
        Err(refusal) if refusal.cause == ConfigCause::OutOfMemory => Err(OutOfMemory),
        Err(_) => Ok(None),
    }
}

/// The tree of a file with these members, and `None` where something isn't of the form of one.
pub fn tree_of(alloc: Global, object: &Object) -> Result<Option<TreeText>, OutOfMemory>
    ensures is { IfOk result (λ t. t ≡ tree_of (pairs_of object.now.entries)) }
    ensures some { IfOk result (λ t. IfSome t (λ t. 0 < length t.cores)) }
{
    if has_doubled(object, &["tree"]) {
        return Ok(None);
    }
    match member(object, "tree") {
        Some((_, value)) => tree_in(alloc, value),
        None => Ok(Some(default_tree(alloc)?)),
    }
}
