ghost use Rattle.std.specs.Prelude.{◌≡◌, None, length, IfOk};
ghost use Rattle.interface_names.specs.declared.records.FederateRecord.{FederateRecord};
ghost use Rattle.dependency_paths.specs.Paths.{AreAncestors};
ghost use Rattle.federation_plan.specs.Interfaces.{AreFew};
ghost use Rattle.federation_plan.specs.Refusal.{Says, named_refusal};
ghost use Rattle.federation_plan.specs.Depends.{depends};
ghost use Rattle.federation_plan.specs.Draft.{IsDraft, AreTables};

use crate::chains::{EndChains, chains_table, check_chains, rerouted_table};
use crate::links::{link_receivers, link_senders, link_values};
use crate::names::{Names, endpoint_names, publication_names};
use crate::refusal::{PlanRefusal, check_filters, check_kinds, check_required};
use crate::tables::{Side, Table, filters_table, targets_table};
use dependency_paths::{Ancestors, Links};
use hel_lists::{Copied, Items, OutOfMemory};
use interface_names::FederateRecord;
use std::alloc::Global;

/// What is looked up while a plan is made.
#[derive(Drop)]
pub(crate) struct Draft {
    pub publications: Names,
    pub endpoints: Names,
    pub sources: Table,
    pub destinations: Table,
}

/// What a plan looks up.
#[derive(Debug, Drop)]
pub(crate) struct Tables {
    pub endpoints: Names,
    pub targets: Table,
    pub chains: Items<Items<EndChains>>,
}

/// Makes the tables that the rest is made from.
pub(crate) fn draft_of(alloc: Global, federates: &[FederateRecord]) -> Result<Draft, OutOfMemory>
    requires { AreFew federates.now }
    ensures { IfOk result (λ draft. IsDraft federates.now draft) }
{
    let publications = publication_names(alloc, federates)?;
    let endpoints = endpoint_names(alloc, federates)?;
    let sources = filters_table(alloc, Side::Source, &endpoints, federates)?;
    let destinations = filters_table(alloc, Side::Destination, &endpoints, federates)?;
    Ok(Draft {
        publications,
        endpoints,
        sources,
        destinations,
    })
}

/// Looks for a reason to make no plan of some federates.
pub(crate) fn check(
    alloc: Global,
    draft: &Draft,
    federates: &[FederateRecord],
) -> Result<(), PlanRefusal>
    requires few { AreFew federates.now }
    requires is { IsDraft federates.now draft.now }
    ensures { Says (named_refusal federates.now) result }
{
    check_required(alloc, &draft.publications, federates)?;
    check_kinds(&draft.publications, federates)?;
    check_filters(alloc, &draft.endpoints, federates)?;
    check_chains(&draft.sources, &draft.destinations, federates)
}

/// The ancestors of each federate.
pub(crate) fn ancestors_of(
    alloc: Global,
    draft: &Draft,
    federates: &[FederateRecord],
) -> Result<Ancestors, OutOfMemory>
    requires few { AreFew federates.now }
    requires is { IsDraft federates.now draft.now }
    requires no_refusal { named_refusal federates.now ≡ None }
    ensures { IfOk result (λ rows. AreAncestors (length federates.now) (depends federates.now) rows) }
{
    let rerouted = rerouted_table(alloc, &draft.endpoints, federates, &draft.sources)?;
    let mut links = Links::new(alloc, federates.len() as u16)?;
    link_values(&mut links, &draft.publications, federates);
    link_senders(&mut links, &draft.endpoints, &rerouted, federates);
    link_receivers(&mut links, &draft.endpoints, &rerouted, federates);
    let ancestors = links.close(alloc)?;
    Ok(ancestors)
}

/// The tables that a plan keeps.
pub(crate) fn tables_of(
    alloc: Global,
    draft: Draft,
    federates: &[FederateRecord],
) -> Result<Tables, OutOfMemory>
    requires few { AreFew federates.now }
    requires is { IsDraft federates.now draft }
    requires no_refusal { named_refusal federates.now ≡ None }
    ensures { IfOk result (λ tables. AreTables federates.now tables) }
{
    let targets = targets_table(alloc, &draft.publications, federates)?;
    let chains = chains_table(
        alloc,
        &draft.endpoints,
        federates,
        &draft.sources,
        &draft.destinations,
    )?;
    let Draft { endpoints, .. } = draft;
    Ok(Tables {
        endpoints,
        targets,
        chains,
    })
}

/// A copy of the tables of these federates. The table of names is made anew.
pub(crate) fn copy_tables(
    alloc: Global,
    tables: &Tables,
    federates: &[FederateRecord],
) -> Result<Tables, OutOfMemory>
    requires few { AreFew federates.now }
    requires are { AreTables federates.now tables.now }
    ensures { IfOk result (λ copy. AreTables federates.now copy) }
{
    let endpoints = endpoint_names(alloc, federates)?;
    let targets = tables.targets.copy(alloc)?;
    let chains = tables.chains.copy(alloc)?;
    Ok(Tables {
        endpoints,
        targets,
        chains,
    })
}
