// Plans in tables.
ghost use Rattle.std.specs.Prelude.{◌≡◌, ◌<◌, IfOk, length};
ghost use Rattle.federation_plan.specs.Tree.{IsValid};

use federation_plan::{NodeKind, NodeRow, Tree};
use hel_lists::{Items, OutOfMemory, Text};
use hel_values::ValueKind;
use helics_time::Settings;
use interface_names::{EndRecord, FederateRecord, FilterRecord, InputRecord, PubRecord, Registry};
use one_place::Plan;
use std::alloc::Global;
use std::test::Fail;

/// A federate in a table: its publications, and the publications that its inputs target.
pub type Row = (&'static [ValueKind], &'static [&'static str]);

/// The names of federates by their numbers, and of publications.
const FEDERATES: [&str; 4] = ["A", "B", "C", "D"];

const PUBLICATIONS: [&str; 2] = ["x", "y"];

/// Three federates, of which the first has a publication for numbers that the second targets.
pub const THREE: [Row; 3] = [(&[ValueKind::Int], &[]), (&[], &["A/x"]), (&[], &[])];

/// The settings of a federate that names none.
fn plain() -> Result<Settings, Fail> {
    Ok(Settings::of(0, 0, 0, 0, 0, false, false, 50).ok_or("settings")?)
}

/// A list of names.
pub fn texts(alloc: Global, names: &[&'static str]) -> Result<Items<Text>, OutOfMemory> {
    let mut texts = Items::new(alloc);
    for name in names {
        texts.push(Text::from_str(alloc, name)?)?;
    }
    Ok(texts)
}

/// A federate of this name with no interfaces.
pub fn nameless(alloc: Global, name: &str) -> Result<FederateRecord, Fail> {
    Ok(FederateRecord {
        name: Text::from_str(alloc, name)?,
        settings: plain()?,
        publications: Items::new(alloc),
        inputs: Items::new(alloc),
        endpoints: Items::new(alloc),
        filters: Items::new(alloc),
    })
}

pub fn publication(alloc: Global, name: &str, kind: ValueKind) -> Result<PubRecord, OutOfMemory> {
    Ok(PubRecord {
        name: Text::from_str(alloc, name)?,
        global: false,
        kind,
    })
}

/// An input without a name that targets one publication.
pub fn subscription(alloc: Global, target: &'static str) -> Result<InputRecord, OutOfMemory> {
    Ok(InputRecord {
        name: None,
        global: false,
        kind: None,
        targets: texts(alloc, &[target])?,
        required: false,
    })
}

/// An endpoint that sends to all, and to this one by default.
pub fn endpoint(
    alloc: Global,
    name: &str,
    default: Option<&'static str>,
) -> Result<EndRecord, OutOfMemory> {
    Ok(EndRecord {
        name: Text::from_str(alloc, name)?,
        global: false,
        targeted: false,
        default_destination: match default {
            Some(name) => Some(Text::from_str(alloc, name)?),
            None => None,
        },
        destination_targets: Items::new(alloc),
        source_targets: Items::new(alloc),
    })
}

fn federate_of(alloc: Global, name: &str, row: &Row) -> Result<FederateRecord, Fail> {
    let mut federate = nameless(alloc, name)?;
    for (name, kind) in PUBLICATIONS.iter().zip(row.0) {
        federate
            .publications
            .push(publication(alloc, name, *kind)?)?;
    }
    for target in row.1 {
        federate.inputs.push(subscription(alloc, target)?)?;
    }
    Ok(federate)
}

fn node(alloc: Global, name: &str, parent: u16, kind: NodeKind) -> Result<NodeRow, OutOfMemory> {
    Ok(NodeRow {
        name: Text::from_str(alloc, name)?,
        parent,
        kind,
    })
}

/// The tree of a root and two cores below it, at the first of which all stand.
fn tree_of(alloc: Global, count: usize) -> Result<Tree, Fail> {
    let mut nodes = Items::new(alloc);
    nodes.push(node(alloc, "root", 0, NodeKind::Root)?)?;
    nodes.push(node(alloc, "one", 0, NodeKind::Core)?)?;
    nodes.push(node(alloc, "two", 0, NodeKind::Core)?)?;
    let mut cores = Items::new(alloc);
    for _ in 0..count {
        cores.push(1)?;
    }
    Ok(Tree { nodes, cores })
}

/// The plan of these federates over a tree.
fn plan_over(alloc: Global, registry: &Registry, tree: Tree) -> Result<Plan, Fail>
    ensures { IfOk result (λ plan. plan.federates ≡ registry.now) }
{
    if !tree.valid() || tree.cores.len() != registry.len() {
        return Err(Fail::from("no tree"));
    }
    match Plan::build(alloc, registry, tree) {
        Ok(plan) => Ok(plan),
        Err(_) => Err(Fail::from("no plan")),
    }
}

/// The plan of a table, whose federates stand at one core.
pub fn plan_of(alloc: Global, rows: &[Row]) -> Result<Plan, Fail> {
    plan_with(alloc, rows, &[])
}

/// What settings a federate of a table has that aren't the plain ones.
#[derive(Clone, Copy)]
pub enum Set {
    Plain,
    /// A period of 3 and an offset of 1.
    Grid,
    /// A `time_delta` of 4.
    Delta,
    Iterations(u32),
    Uninterruptible,
    Wait,
    /// An output delay of 5.
    Output,
    /// An input delay of 2.
    Input,
}

fn settings_of(set: Set) -> Result<Settings, Fail> {
    let mut settings = plain()?;
    match set {
        Set::Plain => {}
        Set::Grid => {
            settings.period = 3;
            settings.offset = 1;
        }
        Set::Delta => settings.time_delta = 4,
        Set::Iterations(count) => settings.max_iterations = count.clamp(1, 10),
        Set::Uninterruptible => settings.uninterruptible = true,
        Set::Wait => settings.wait = true,
        Set::Output => settings.output_delay = 5,
        Set::Input => settings.input_delay = 2,
    }
    Ok(settings)
}

fn federate_with(alloc: Global, name: &str, row: &Row, set: Set) -> Result<FederateRecord, Fail> {
    let settings = settings_of(set)?;
    let mut federate = federate_of(alloc, name, row)?;
    federate.settings = settings;
    Ok(federate)
}

/// The plan of a table whose first federates have these settings.
pub fn plan_with(alloc: Global, rows: &[Row], sets: &[Set]) -> Result<Plan, Fail> {
    let mut registry = Registry::new(alloc);
    for (at, (name, row)) in FEDERATES.iter().zip(rows).enumerate() {
        let set = sets.get(at).copied().unwrap_or(Set::Plain);
        enter(&mut registry, federate_with(alloc, name, row, set))?;
    }
    plan_of_all(alloc, &registry)
}

/// The plan of federates that stand at one core.
pub fn plan_of_all(alloc: Global, registry: &Registry) -> Result<Plan, Fail> {
    plan_over(alloc, registry, tree_of(alloc, registry.len())?)
}

/// Takes a federate into a registry, where there is one.
pub fn enter(registry: &mut Registry, federate: Result<FederateRecord, Fail>) -> Result<(), Fail> {
    match registry.add(federate?) {
        Ok(_) => Ok(()),
        Err(_) => Err(Fail::from("no federate")),
    }
}
