ghost use Rattle.std.specs.Prelude.{◌≡◌, ◌≤◌, ◌<◌, ℕ, List, [], length, slice_index_or, unwrap_or, None, IfOk};
ghost use Rattle.std.specs.HashMap.{get_by_text};
ghost use Rattle.hel_lists.specs.Members.{Each};
ghost use Rattle.hel_values.specs.declared.EndRef.{EndRef};
ghost use Rattle.interface_names.specs.declared.records.EndRecord.{EndRecord};
ghost use Rattle.interface_names.specs.Limits.{most_interfaces};
ghost use Rattle.message_filters.specs.Limits.{most_filters};
ghost use Rattle.federation_plan.specs.Interfaces.{AreFew, IsFilter, federate_at, IsEndpoint, filter_at as filter_at_ref, endpoints, one_in, interfaces_in};
ghost use Rattle.federation_plan.specs.Chains.{filter_of as filter_by};
ghost use Rattle.federation_plan.specs.Refusal.{Says, first_some};
ghost use Rattle.federation_plan.specs.Tables.{row_at, entry, HasPlace, too_long_in, AreLists, chain_by, chains_by, blank_chains, chains_at, rerouted_at};
ghost use Rattle.federation_plan.specs.Depends.{last_reroute};
ghost use Rattle.federation_plan.specs.Draft.{IsSide};
ghost use Rattle.message_filters.specs.Filter.{reroute_of as reroute_by};

use crate::links::Rerouted;
use crate::names::Names;
use crate::refusal::PlanRefusal;
use crate::tables::Table;
use hel_lists::{Copied, Items, OutOfMemory, Text};
use hel_values::EndRef;
use interface_names::{FederateRecord, FilterKind, FilterRecord};
use message_filters::{CHAIN_LIMIT, Chain, Filter, FilterDelay, PerMillion};
use std::alloc::Global;

/// The chains of an endpoint: what it sends passes the one, what it receives the other.
#[derive(Debug, Drop)]
pub(crate) struct EndChains {
    pub source: Chain,
    pub destination: Chain,
}

impl Copied for EndChains {
    fn copy(&self, alloc: Global) -> Result<Self, OutOfMemory> {
        Ok(EndChains {
            source: self.source.copy(alloc)?,
            destination: self.destination.copy(alloc)?,
        })
    }
}

/// Looks for an endpoint with too many filters on one side.
pub(crate) fn check_chains(
    sources: &Table,
    destinations: &Table,
    federates: &[FederateRecord],
) -> Result<(), PlanRefusal>
    requires few { AreFew federates.now }
    requires sources { (f : ℕ) → length (row_at sources.now f) ≡ length (federate_at federates.now f).endpoints }
    requires destinations { (f : ℕ) → length (row_at destinations.now f) ≡ length (federate_at federates.now f).endpoints }
    ensures { Says (first_some (too_long_in sources.now destinations.now) (endpoints federates.now)) result }
{
    for (f, federate) in federates.iter().enumerate() {
        check_chains_of(sources, destinations, f as u16, federate)?;
    }
    Ok(())
}

fn check_chains_of(
    sources: &Table,
    destinations: &Table,
    f: u16,
    federate: &FederateRecord,
) -> Result<(), PlanRefusal>
    requires few { length federate.now.endpoints ≤ most_interfaces }
    requires sources { length (row_at sources.now f) ≡ length federate.now.endpoints }
    requires destinations { length (row_at destinations.now f) ≡ length federate.now.endpoints }
    ensures { Says (first_some (too_long_in sources.now destinations.now) (interfaces_in federate.now.name f 0 federate.now.endpoints)) result }
{
    for index in 0..federate.endpoints.len() {
        let at = EndRef {
            fed: f,
            index: index as u16,
        };
        check_chain(sources, destinations, at)?;
    }
    Ok(())
}

fn check_chain(sources: &Table, destinations: &Table, at: EndRef) -> Result<(), PlanRefusal>
    requires sources { HasPlace sources.now at }
    requires destinations { HasPlace destinations.now at }
    ensures { (owner : List ℕ) (item : EndRecord) → Says (too_long_in sources.now destinations.now (one_in owner at.fed at.index item)) result }
{
    if list_at(sources, at).len() > CHAIN_LIMIT || list_at(destinations, at).len() > CHAIN_LIMIT {
        return Err(PlanRefusal::ChainTooLong(at));
    }
    Ok(())
}

// What stands at an interface.
fn list_at(table: &Table, at: EndRef) -> &[EndRef]
    requires { HasPlace table.now at }
    ensures { result.now ≡ entry table.now at }
{
    table.at(at.fed as usize).at(at.index as usize).as_slice()
}

/// For each endpoint its chains. The tables have the filters that stand on its sides.
pub(crate) fn chains_table(
    alloc: Global,
    endpoints: &Names,
    federates: &[FederateRecord],
    sources: &Table,
    destinations: &Table,
) -> Result<Items<Items<EndChains>>, OutOfMemory>
    requires few { AreFew federates.now }
    requires sources { IsSide federates.now sources.now }
    requires destinations { IsSide federates.now destinations.now }
    ensures places { IfOk result (λ table. (f : ℕ) → length (row_at table f) ≡ length (federate_at federates.now f).endpoints) }
    ensures chains { IfOk result (λ table. (e : EndRef) → IsEndpoint federates.now e →
        chains_at table e ≡ chains_by (get_by_text endpoints.now) federates.now (entry sources.now e) (entry destinations.now e)) }
{
    let mut table = Items::new(alloc);
    for (f, federate) in federates.iter().enumerate() {
        let count = federate.endpoints.len();
        let row = chains_row(
            alloc,
            endpoints,
            federates,
            f as u16,
            count,
            sources,
            destinations,
        )?;
        table.push(row)?;
    }
    Ok(table)
}

// The chains of a federate's endpoints, of which there are so many.
fn chains_row(
    alloc: Global,
    endpoints: &Names,
    federates: &[FederateRecord],
    f: u16,
    count: usize,
    sources: &Table,
    destinations: &Table,
) -> Result<Items<EndChains>, OutOfMemory>
    requires few { count ≤ most_interfaces }
    requires sources { AreLists federates.now (row_at sources.now f) count }
    requires destinations { AreLists federates.now (row_at destinations.now f) count }
    ensures count { IfOk result (λ row. length row ≡ count) }
    ensures chains { IfOk result (λ row. (n : ℕ) → n < count → slice_index_or row n blank_chains ≡ chains_by (get_by_text endpoints.now) federates.now
        (slice_index_or (row_at sources.now f) n []) (slice_index_or (row_at destinations.now f) n [])) }
{
    let mut row = Items::new(alloc);
    for index in 0..count {
        let at = EndRef {
            fed: f,
            index: index as u16,
        };
        row.push(EndChains {
            source: chain_of(endpoints, federates, list_at(sources, at)),
            destination: chain_of(endpoints, federates, list_at(destinations, at)),
        })?;
    }
    Ok(row)
}

// The chain of these filters.
fn chain_of(endpoints: &Names, federates: &[FederateRecord], refs: &[EndRef]) -> Chain
    requires few { length refs.now ≤ most_filters }
    requires known { Each (IsFilter federates.now) refs.now }
    ensures { result ≡ chain_by (get_by_text endpoints.now) federates.now refs.now }
{
    let mut chain = Chain::new();
    for at in refs {
        let filter = filter_of(endpoints, filter_at(federates, *at));
        chain.push(filter).unwrap();
    }
    chain
}

fn filter_at(federates: &[FederateRecord], at: EndRef) -> &FilterRecord
    requires { IsFilter federates.now at }
    ensures { result.now ≡ filter_at_ref federates.now at }
{
    federates[at.fed as usize].filters.at(at.index as usize)
}

// The filter as a chain has it.
fn filter_of(endpoints: &Names, filter: &FilterRecord) -> Filter
    ensures { result ≡ filter_by (get_by_text endpoints.now) filter.now.kind }
{
    match &filter.kind {
        FilterKind::Delay(delay) => Filter::Delay(FilterDelay::of(*delay).unwrap()),
        FilterKind::Drop { per_million, seed } => Filter::Drop {
            per_million: PerMillion::of(*per_million).unwrap(),
            seed: *seed,
        },
        FilterKind::Reroute(name) => Filter::Reroute(end_of(endpoints, name)),
    }
}

// The endpoint of this name. Where there is none, no plan is made.
fn end_of(endpoints: &Names, name: &Text) -> EndRef
    ensures { result ≡ unwrap_or (get_by_text endpoints.now name.now) (record { fed = 0; index = 0 }) }
{
    let none = EndRef { fed: 0, index: 0 };
    endpoints.get(name.as_str()).copied().unwrap_or(none)
}

/// For each endpoint that of the last reroute in its source chain. The table has the filters that
/// stand there.
pub(crate) fn rerouted_table(
    alloc: Global,
    endpoints: &Names,
    federates: &[FederateRecord],
    sources: &Table,
) -> Result<Rerouted, OutOfMemory>
    requires few { AreFew federates.now }
    requires sources { IsSide federates.now sources.now }
    ensures places { IfOk result (λ table. (f : ℕ) → length (row_at table f) ≡ length (federate_at federates.now f).endpoints) }
    ensures ends { IfOk result (λ table. (e : EndRef) →
        rerouted_at table e ≡ last_reroute (chain_by (get_by_text endpoints.now) federates.now (entry sources.now e))) }
{
    let mut table = Items::new(alloc);
    for (f, federate) in federates.iter().enumerate() {
        let count = federate.endpoints.len();
        let row = rerouted_row(alloc, endpoints, federates, f as u16, count, sources)?;
        table.push(row)?;
    }
    Ok(table)
}

fn rerouted_row(
    alloc: Global,
    endpoints: &Names,
    federates: &[FederateRecord],
    f: u16,
    count: usize,
    sources: &Table,
) -> Result<Items<Option<EndRef>>, OutOfMemory>
    requires few { count ≤ most_interfaces }
    requires sources { AreLists federates.now (row_at sources.now f) count }
    ensures count { IfOk result (λ row. length row ≡ count) }
    ensures ends { IfOk result (λ row. (n : ℕ) → slice_index_or row n None
        ≡ last_reroute (chain_by (get_by_text endpoints.now) federates.now (slice_index_or (row_at sources.now f) n []))) }
{
    let mut row = Items::new(alloc);
    for index in 0..count {
        let at = EndRef {
            fed: f,
            index: index as u16,
        };
        row.push(last_end(endpoints, federates, list_at(sources, at)))?;
    }
    Ok(row)
}

// The endpoint of the last of these filters that reroutes.
fn last_end(endpoints: &Names, federates: &[FederateRecord], refs: &[EndRef]) -> Option<EndRef>
    requires { Each (IsFilter federates.now) refs.now }
    ensures { result ≡ last_reroute (chain_by (get_by_text endpoints.now) federates.now refs.now) }
{
    let mut last = None;
    for at in refs {
        last = reroute_of(endpoints, filter_at(federates, *at)).or(last);
    }
    last
}

fn reroute_of(endpoints: &Names, filter: &FilterRecord) -> Option<EndRef>
    ensures { result ≡ reroute_by (filter_by (get_by_text endpoints.now) filter.now.kind) }
{
    match &filter.kind {
        FilterKind::Reroute(name) => Some(end_of(endpoints, name)),
        _ => None,
    }
}
