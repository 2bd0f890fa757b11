//! What the files of a federation set up, and what speaks against it (docs/FORMATS.md, Order of reading).
ghost use Rattle.std.specs.Prelude.{◌≡◌, [], ◌∷◌, ◌++◌, length, count_by, IfOk, IfSome, OnOk};
ghost use Rattle.std.specs.List.{list_any, position_from};
ghost use Rattle.std.specs.Option.{is_none};
ghost use Rattle.hel_lists.specs.Members.{Each};
ghost use Rattle.fed_script.specs.Script.{IsCourse};
ghost use Rattle.federation_plan.specs.Tree.{IsValid};
ghost use Rattle.federation_plan.specs.Wires.{is_core_kind};
ghost use Rattle.runner_config.specs.Runner.{tree_with};
ghost use Rattle.scenario_reading.specs.Verdict.{Says, unless_refused, unrefused, nothing};
ghost use Rattle.scenario_reading.specs.Fitting.{setting_seen, scenario_seen, federates_of, scripts_of, cores_of, is_broker, is_deep, tree_refusal, join_refusal, names_refusal, plan_told, plan_refusal, script_refusal, scripts_in, setting_of, scenario_of};

use crate::refusal::Refusal;
use crate::scene::{Scenario, Setting};
use crate::unread::Unread;
use fed_config::FederateConfig;
use fed_script::Script;
use federation_plan::{
    NodeKind, NodeRow, Plan, PlanRefusal, Tree, endpoint_name, federate_name, publication_name,
};
use hel_lists::{Copied, Items, OutOfMemory, Text};
use interface_names::{FederateRecord, Registry, RegistryRefusal};
use runner_config::{Entry, Runner};
use std::alloc::Global;

// ---- the tree

fn has_broker(nodes: &[NodeRow]) -> bool
    ensures { result ≡ list_any (λ n. is_broker n.kind) nodes.now }
{
    nodes
        .iter()
        .any(|node| matches!(node.kind, NodeKind::Broker))
}

fn core_count(nodes: &[NodeRow]) -> usize
    ensures { result ≡ count_by (λ n. is_core_kind n.kind) nodes.now }
{
    nodes
        .iter()
        .filter(|node| matches!(node.kind, NodeKind::Core))
        .count()
}

// Whether there is a broker below the root, or more than one core.
fn is_deep(nodes: &[NodeRow]) -> bool
    ensures { result ≡ is_deep nodes.now }
{
    has_broker(nodes) || core_count(nodes) > 1
}

fn check_tree(alloc: Global, file: &str, nodes: &[NodeRow]) -> Result<(), Unread>
    ensures { Says nothing (unrefused (tree_refusal file.now nodes.now)) result }
{
    if is_deep(nodes) {
        let path = Text::from_str(alloc, file)?;
        return Err(Unread::Refused(Refusal::NotBuilt(path)));
    }
    Ok(())
}

// The cores of the entries.
fn cores_of(alloc: Global, entries: &[Entry]) -> Result<Items<u16>, OutOfMemory>
    ensures { IfOk result (λ cores. cores ≡ cores_of entries.now) }
{
    let mut cores = Items::new(alloc);
    for entry in entries {
        cores.push(entry.core)?;
    }
    Ok(cores)
}

fn tree_of(alloc: Global, runner: Runner) -> Result<Tree, OutOfMemory>
    ensures { IfOk result (λ tree. tree ≡ tree_with runner) }
{
    let Runner { nodes, entries } = runner;
    let cores = cores_of(alloc, entries.as_slice())?;
    Ok(Tree { nodes, cores })
}

// ---- names

// The registry of these federates, which join one after another.
fn registry_of(alloc: Global, federates: Items<FederateRecord>) -> Result<Registry, Unread>
    ensures { Says (λ r. r) (unless_refused (names_refusal [] federates) federates) result }
{
    let mut registry = Registry::new(alloc);
    for federate in federates.into_vec() {
        join(alloc, &mut registry, federate)?;
    }
    Ok(registry)
}

// A federate joins those before it.
fn join(alloc: Global, registry: &mut Registry, federate: FederateRecord) -> Result<(), Unread>
    ensures says { Says nothing (unrefused (join_refusal registry.old federate)) result }
    ensures joined { OnOk result (registry.new ≡ registry.old ++ federate ∷ []) }
{
    let name = federate.name.copy(alloc)?;
    match registry.add(federate) {
        Ok(_) => Ok(()),
        Err(RegistryRefusal::OutOfMemory) => Err(Unread::OutOfMemory),
        Err(refusal) => Err(Unread::Refused(Refusal::Federate { name, refusal })),
    }
}

// ---- the plan

// A reason against a plan, told by names; none for want of memory.
fn plan_told(
    alloc: Global,
    federates: &[FederateRecord],
    refusal: PlanRefusal,
) -> Result<Option<Refusal>, OutOfMemory>
    ensures { IfOk result (λ told. told ≡ plan_told federates.now refusal) }
{
    let told = match refusal {
        PlanRefusal::NoFederates => Refusal::NoFederates,
        PlanRefusal::MissingRequired { fed, name } => Refusal::MissingRequired {
            federate: Text::from_str(alloc, federate_name(federates, usize::from(fed)))?,
            target: name,
        },
        PlanRefusal::KindMismatch {
            fed,
            publication,
            ..
        } => Refusal::KindMismatch {
            federate: Text::from_str(alloc, federate_name(federates, usize::from(fed)))?,
            publication: publication_name(alloc, federates, publication)?,
        },
        PlanRefusal::FilterTarget(name) => Refusal::FilterTarget(name),
        PlanRefusal::ChainTooLong(endpoint) => {
            Refusal::ChainTooLong(endpoint_name(alloc, federates, endpoint)?)
        }
        PlanRefusal::OutOfMemory => return Ok(None),
    };
    Ok(Some(told))
}

fn plan_of(alloc: Global, registry: &Registry, tree: Tree) -> Result<Plan, Unread>
    requires valid { IsValid tree }
    requires cores { length tree.cores ≡ length registry.now }
    ensures says { Says nothing (unrefused (plan_refusal registry.now)) result }
    ensures federates { IfOk result (λ p. p.federates ≡ registry.now) }
    ensures tree { IfOk result (λ p. p.tree ≡ tree) }
{
    match Plan::build(alloc, registry, tree) {
        Ok(plan) => Ok(plan),
        Err(refusal) => match plan_told(alloc, registry.federates(), refusal)? {
            Some(refusal) => Err(Unread::Refused(refusal)),
            None => Err(Unread::OutOfMemory),
        },
    }
}

// ---- the whole

// The federates and their scripts.
fn parts_of(
    alloc: Global,
    configs: Items<FederateConfig>,
) -> Result<(Items<FederateRecord>, Items<Option<Script>>), OutOfMemory>
    ensures federates { IfOk result (λ parts. parts.0 ≡ federates_of configs) }
    ensures scripts { IfOk result (λ parts. parts.1 ≡ scripts_of configs) }
{
    let mut federates = Items::new(alloc);
    let mut scripts = Items::new(alloc);
    for config in configs.into_vec() {
        let FederateConfig {
            federate,
            script,
            ..
        } = config;
        federates.push(federate)?;
        scripts.push(script)?;
    }
    Ok((federates, scripts))
}

/// What the files of a federation set up, or the first reason against it.
#[tactic(auto, unfolding(crate::specs::Fitting::setting_of))]
pub fn setting_of(
    alloc: Global,
    file: &str,
    runner: Runner,
    configs: Items<FederateConfig>,
) -> Result<Setting, Unread>
    requires tree { IsValid (tree_with runner) }
    requires each { length configs ≡ length runner.entries }
    requires rules { Each (λ c. IfSome c.script IsCourse) configs }
    ensures says { Says setting_seen (setting_of file.now runner configs) result }
    ensures each { IfOk result (λ s. length s.scripts ≡ length s.plan.federates) }
    ensures rules { IfOk result (λ s. Each (λ script. IfSome script IsCourse) s.scripts) }
{
    check_tree(alloc, file, runner.nodes.as_slice())?;
    let (federates, scripts) = parts_of(alloc, configs)?;
    let registry = registry_of(alloc, federates)?;
    let tree = tree_of(alloc, runner)?;
    let plan = plan_of(alloc, &registry, tree)?;
    Ok(Setting { plan, scripts })
}

// ---- scripts

fn first_missing(scripts: &[Option<Script>]) -> Option<usize>
    ensures { result ≡ position_from is_none 0 scripts.now }
{
    for (f, script) in scripts.iter().enumerate() {
        if script.is_none() {
            return Some(f);
        }
    }
    None
}

fn check_scripts(
    alloc: Global,
    federates: &[FederateRecord],
    scripts: &[Option<Script>],
) -> Result<(), Unread>
    ensures { Says nothing (unrefused (script_refusal federates.now scripts.now)) result }
{
    match first_missing(scripts) {
        Some(f) => {
            let name = Text::from_str(alloc, federate_name(federates, f))?;
            Err(Unread::Refused(Refusal::NoScript(name)))
        }
        None => Ok(()),
    }
}

// The scripts that there are.
#[tactic(auto, using(crate::proofs::Scripts::kept, crate::proofs::Scripts::passed_over))]
fn scripts_in(alloc: Global, scripts: Items<Option<Script>>) -> Result<Items<Script>, OutOfMemory>
    ensures { IfOk result (λ all. all ≡ scripts_in scripts) }
{
    let mut all = Items::new(alloc);
    for script in scripts.into_vec() {
        if let Some(script) = script {
            all.push(script)?;
        }
    }
    Ok(all)
}

/// The same where each federate is played by its script.
#[tactic(auto, unfolding(crate::specs::Fitting::scenario_of))]
pub fn scenario_of(alloc: Global, setting: Setting) -> Result<Scenario, Unread>
    requires each { length setting.scripts ≡ length setting.plan.federates }
    requires rules { Each (λ script. IfSome script IsCourse) setting.scripts }
    ensures says { Says scenario_seen (scenario_of (setting_seen setting)) result }
    ensures each { IfOk result (λ s. length s.scripts ≡ length s.plan.federates) }
    ensures rules { IfOk result (λ s. Each IsCourse s.scripts) }
{
    let Setting { plan, scripts } = setting;
    check_scripts(alloc, plan.federates(), scripts.as_slice())?;
    let scripts = scripts_in(alloc, scripts)?;
    Ok(Scenario { plan, scripts })
}
