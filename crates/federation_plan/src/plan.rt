ghost use Rattle.std.specs.Prelude.{◌≡◌, ◌≢◌, ◌≤◌, ◌<◌, ◌*◌, None, length, IfOk, IfSome};
ghost use Rattle.std.specs.HashMap.{get_by_text};
ghost use Rattle.hel_lists.specs.Members.{Each};
ghost use Rattle.interface_names.specs.declared.records.FederateRecord.{FederateRecord};
ghost use Rattle.interface_names.specs.Limits.{most_federates};
ghost use Rattle.dependency_paths.specs.Paths.{row_of};
ghost use Rattle.message_filters.specs.Chain.{KeepsBounds as KeepsLimits};
ghost use Rattle.helics_time.specs.Time.{longest_span};
ghost use Rattle.message_filters.specs.Limits.{most_filters};
ghost use Rattle.federation_plan.specs.Interfaces.{IsPublication, IsEndpoint, federate_at, endpoint_of, endpoint_at, name_ref};
ghost use Rattle.federation_plan.specs.Chains.{may_send, filtered_at, later_by, IsFiltered, source_chain, destination_chain};
ghost use Rattle.federation_plan.specs.Refusal.{named_refusal, none_at_all, refusal_of};
ghost use Rattle.helics_time.specs.Settings.{IsTerms};
ghost use Rattle.interface_names.specs.Filter.{KeepsBounds};
ghost use Rattle.interface_names.specs.Registry.{IsRegistry};
ghost use Rattle.tree_facts.specs.Tree.{hop};
ghost use Rattle.tree_facts.specs.Hops.{next_hop_of, node_after};
ghost use Rattle.federation_plan.specs.Tree.{IsValid, parents_of};
ghost use Rattle.federation_plan.specs.Draft.{IsDraft};
ghost use Rattle.federation_plan.specs.Plan.{IsFederation, IsKept, Builds, targets_of, core_at};

use crate::chains::EndChains;
use crate::draft::{Draft, Tables, ancestors_of, check, copy_tables, draft_of, tables_of};
use crate::names::Names;
use crate::refusal::PlanRefusal;
use crate::tree::{Tree, parents};
use dependency_paths::Ancestors;
use hel_lists::{Copied, Items, OutOfMemory, Text};
use hel_values::EndRef;
use helics_time::Settings;
use interface_names::{EndRecord, FederateRecord, FilterRecord, Registry};
use message_filters::Filtered;
use std::alloc::Global;
use std::marker::Model;
use tree_facts::{Hop, next_hop};

/// The plan of a federation: its federates, its tree, and what is looked up in a run. Contracts see
/// the records of the federates, the tree and the ancestors of each federate.
#[derive(Debug, Drop)]
pub struct Plan {
    federates: Items<FederateRecord>,
    tree: Tree,
    parents: Items<u16>,
    ancestors: Ancestors,
    tables: Tables,
}

impl Model for Plan {
    ghost use Rattle.std.specs.Prelude.{◌≡◌};
    ghost use Rattle.federation_plan.specs.Plan.{Federation, IsFederation};
    ghost use Rattle.federation_plan.specs.Draft.{AreTables};
    ghost use Rattle.federation_plan.specs.Tree.{parents_of};

    ghost Value = { Federation };

    ghost view = { λ p. record { federates = p.federates; tree = p.tree; ancestors = p.ancestors } };

    ghost invariant = { λ p. IsFederation (record { federates = p.federates; tree = p.tree; ancestors = p.ancestors })
        × AreTables p.federates p.tables × (p.parents ≡ parents_of p.tree.nodes) };
}

impl Plan {
    /// The plan of the federates of a registry over a tree. It is refused where there is no federate;
    /// where a required input has a target that is no publication; where a target has another kind
    /// than its input takes; where a filter refers to what is no endpoint; and where more than 8
    /// filters stand on one side of an endpoint (docs/RULES.md, Targets and dependencies). The tree is
    /// valid and has a core for each federate.
    pub fn build(alloc: Global, registry: &Registry, tree: Tree) -> Result<Plan, PlanRefusal>
        requires valid { IsValid tree }
        requires cores { length tree.cores ≡ length registry.now }
        ensures { Builds registry.now tree result }
    {
        if registry.len() == 0 {
            return Err(PlanRefusal::NoFederates);
        }
        let federates = copies(alloc, registry)?;
        let records = federates.as_slice();
        let draft = draft_of(alloc, records)?;
        check(alloc, &draft, records)?;
        let plan = finish(alloc, draft, federates, tree)?;
        Ok(plan)
    }

    /// The number of federates: at most 512.
    pub fn count(&self) -> u16
        ensures count { result ≡ length self.now.federates }
        ensures few { result ≤ most_federates }
    {
        self.federates.len() as u16
    }

    /// All federates, in order of their numbers.
    pub fn federates(&self) -> &[FederateRecord]
        ensures federates { result.now ≡ self.now.federates }
        ensures plan { IsFederation self.now }
    {
        self.federates.as_slice()
    }

    /// The federate of a number.
    pub fn federate(&self, f: u16) -> &FederateRecord
        requires { f < length self.now.federates }
        ensures { result.now ≡ federate_at self.now.federates f }
    {
        self.federates.at(usize::from(f))
    }

    /// The nodes, and for each federate the core at which it stands.
    pub fn tree(&self) -> &Tree
        ensures tree { result.now ≡ self.now.tree }
        ensures valid { IsValid result.now }
    {
        &self.tree
    }

    /// The federates on which one depends, itself left out, in ascending order (docs/RULES.md,
    /// Dependencies).
    pub fn ancestors(&self, f: u16) -> &[u16]
        requires { f < length self.now.federates }
        ensures { result.now ≡ row_of self.now.ancestors f }
    {
        self.ancestors.of(f)
    }

    /// The core of a federate.
    pub fn core_of(&self, f: u16) -> u16
        requires { f < length self.now.federates }
        ensures { result ≡ core_at self.now f }
    {
        *self.tree.cores.at(usize::from(f))
    }

    /// The inputs that target a publication, in the order of federates and inputs.
    pub fn targets(&self, publication: EndRef) -> &[EndRef]
        requires { IsPublication self.now.federates publication }
        ensures { result.now ≡ targets_of self.now.federates publication }
    {
        let row = self.tables.targets.at(usize::from(publication.fed));
        row.at(usize::from(publication.index)).as_slice()
    }

    /// The endpoint of a name, and `None` exactly where no endpoint has it.
    pub fn endpoint(&self, name: &str) -> Option<EndRef>
        ensures value { result ≡ endpoint_of self.now.federates name.now }
        ensures is { IfSome result (IsEndpoint self.now.federates) }
    {
        self.tables.endpoints.get(name).copied()
    }

    /// Whether one endpoint may send to another: to each where it isn't targeted, else to its
    /// destination targets and to those that name it among their source targets (docs/RULES.md,
    /// Targets and dependencies).
    pub fn may_send(&self, from: EndRef, to: EndRef) -> bool
        requires from { IsEndpoint self.now.federates from }
        requires to { IsEndpoint self.now.federates to }
        ensures { result ≡ may_send self.now.federates from to }
    {
        let names = &self.tables.endpoints;
        let sender = self.end_record(from);
        !sender.targeted
            || is_meant(names, sender.destination_targets.as_slice(), to)
            || is_meant(names, self.end_record(to).source_targets.as_slice(), from)
    }

    /// What the filters make of a message with this sequence number from one endpoint to another: it
    /// passes the source chain of the one, then the destination chain of the endpoint that results
    /// (docs/RULES.md, Filters). The place of a filter that drops it is that in its own chain.
    pub fn filtered(&self, from: EndRef, sequence: u64, dest: EndRef) -> Filtered
        requires from { IsEndpoint self.now.federates from }
        requires dest { IsEndpoint self.now.federates dest }
        ensures value { result ≡ filtered_at self.now.federates from sequence dest }
        ensures is { IsFiltered self.now.federates result }
    {
        match self.chains_of(from).source.run(from.fed, sequence, dest) {
            Filtered::Kept { dest: end, delay } => {
                let second = &self.chains_of(end).destination;
                put_off(delay, second.run(from.fed, sequence, end))
            }
            Filtered::Dropped { place } => Filtered::Dropped { place },
        }
    }

    /// The next node on the way from a node to the core of a federate (docs/RULES.md, Trees).
    pub fn route(&self, node: u16, f: u16) -> Hop
        requires node { node < length self.now.tree.nodes }
        requires federate { f < length self.now.federates }
        ensures value { result ≡ next_hop_of (parents_of self.now.tree.nodes) node (core_at self.now f) }
        ensures leads { node ≢ core_at self.now f →
            node_after (parents_of self.now.tree.nodes) node result ≡ hop (parents_of self.now.tree.nodes) node (core_at self.now f) }
    {
        next_hop(self.parents.as_slice(), node, self.core_of(f))
    }

    fn end_record(&self, at: EndRef) -> &EndRecord
        requires { IsEndpoint self.now.federates at }
        ensures { result.now ≡ (endpoint_at self.now.federates at).item }
    {
        self.federate(at.fed).endpoints.at(usize::from(at.index))
    }

    // The chains of an endpoint.
    fn chains_of(&self, at: EndRef) -> &EndChains
        requires { IsEndpoint self.now.federates at }
        ensures source { result.now.source ≡ source_chain self.now.federates at }
        ensures destination { result.now.destination ≡ destination_chain self.now.federates at }
        ensures accepted { refusal_of self.now.federates ≡ None }
    {
        let row = self.tables.chains.at(usize::from(at.fed));
        row.at(usize::from(at.index))
    }
}

impl Copied for Plan {
    fn copy(&self, alloc: Global) -> Result<Self, OutOfMemory> {
        let federates = self.federates.copy(alloc)?;
        let tree = self.tree.copy(alloc)?;
        let parents = self.parents.copy(alloc)?;
        let ancestors = self.ancestors.copy(alloc)?;
        let tables = copy_tables(alloc, &self.tables, self.federates.as_slice())?;
        Ok(Plan {
            federates,
            tree,
            parents,
            ancestors,
            tables,
        })
    }
}

// Whether one of the names means this endpoint.
fn is_meant(endpoints: &Names, names: &[Text], at: EndRef) -> bool
    ensures { result ≡ name_ref (get_by_text endpoints.now) names.now at }
{
    names.iter().any(|name| endpoints.get(name.as_str()).is_some_and(|end| *end == at))
}

// What the second chain made of a message to which the first one added a delay.
fn put_off(delay: u64, second: Filtered) -> Filtered
    requires delay { delay ≤ most_filters * longest_span }
    requires second { KeepsLimits second }
    ensures { result ≡ later_by delay second }
{
    match second {
        Filtered::Kept { dest, delay: more } => Filtered::Kept {
            dest,
            delay: delay + more,
        },
        Filtered::Dropped { place } => Filtered::Dropped { place },
    }
}

// Copies of the records of a registry.
fn copies(alloc: Global, registry: &Registry) -> Result<Items<FederateRecord>, OutOfMemory>
    ensures { IfOk result (λ records. records ≡ registry.now) }
{
    let mut records = Items::new(alloc);
    for f in 0..registry.len() {
        records.push(registry.federate(f as u16).copy(alloc)?)?;
    }
    Ok(records)
}

// The plan of federates against which nothing speaks.
fn finish(
    alloc: Global,
    draft: Draft,
    federates: Items<FederateRecord>,
    tree: Tree,
) -> Result<Plan, OutOfMemory>
    requires registry { IsRegistry federates }
    requires some { none_at_all federates ≡ None }
    requires is { IsDraft federates draft }
    requires no_refusal { named_refusal federates ≡ None }
    requires valid { IsValid tree }
    requires cores { length tree.cores ≡ length federates }
    ensures is { IfOk result (λ plan. IsFederation plan) }
    ensures federates { IfOk result (λ plan. plan.federates ≡ federates) }
    ensures tree { IfOk result (λ plan. plan.tree ≡ tree) }
{
    let records = federates.as_slice();
    know_all(records);
    let ancestors = ancestors_of(alloc, &draft, records)?;
    let tables = tables_of(alloc, draft, records)?;
    let parents = parents(alloc, tree.nodes.as_slice())?;
    Ok(Plan {
        federates,
        tree,
        parents,
        ancestors,
        tables,
    })
}

// What each record keeps: reading a field of a type tells.
fn know_all(federates: &[FederateRecord])
    ensures { Each IsKept federates.now }
{
    for federate in federates {
        know(federate);
    }
}

fn know(federate: &FederateRecord)
    ensures { IsKept federate.now }
{
    know_terms(&federate.settings);
    know_filters(federate.filters.as_slice());
}

fn know_terms(settings: &Settings)
    ensures { IsTerms settings.now }
{
    let _period = settings.period;
}

fn know_filters(filters: &[FilterRecord])
    ensures { Each (λ t. KeepsBounds t.kind t.destination_of) filters.now }
{
    for filter in filters {
        know_filter(filter);
    }
}

fn know_filter(filter: &FilterRecord)
    ensures { KeepsBounds filter.now.kind filter.now.destination_of }
{
    let _kind = &filter.kind;
}
