ghost use Rattle.std.specs.Prelude.{◌≡◌, ◌≤◌, ◌<◌, ℕ, List, [], length, find, is_none, if◌then◌else◌, Some, None, option_map};
ghost use Rattle.std.specs.HashMap.{get_by_text};
ghost use Rattle.std.specs.Option.{option_copied};
ghost use Rattle.interface_names.specs.Limits.{most_interfaces};
ghost use Rattle.federation_plan.specs.declared.refusal.PlanRefusal.TheVariants.{FilterTarget as UnknownTarget, OutOfMemory as NoMemory};
ghost use Rattle.federation_plan.specs.Interfaces.{AreFew, IsPublication, ArePublications, one_in, interfaces_in, inputs, filters, publication_at};
ghost use Rattle.federation_plan.specs.Refusal.{Says, first_some, unknown_of, missing_at, other_kind as other_kind_of, mismatch_at, target_at};
ghost use Rattle.hel_values.specs.Values.{same_kind as same_kind_of};

use crate::names::Names;
use hel_lists::{Copied, OutOfMemory, Text};
use hel_values::{EndRef, ValueKind};
use interface_names::{FederateRecord, FilterKind, FilterRecord, InputRecord};
use std::alloc::Global;

/// Why no plan is made of a registry. The earlier reason stands before the later, and of one reason
/// the first by federate and interface (docs/RULES.md, Targets and dependencies).
#[derive(Debug, Drop, PartialEq, Eq)]
pub enum PlanRefusal {
    NoFederates,
    /// The federate has a required input whose target of this name is no publication.
    MissingRequired {
        fed: u16,
        name: Text,
    },
    /// The federate's input takes values of another kind than its target publication's.
    KindMismatch {
        fed: u16,
        input: u16,
        publication: EndRef,
    },
    /// No endpoint has this name, to which a filter refers.
    FilterTarget(Text),
    /// More than 8 filters stand on one side of this endpoint.
    ChainTooLong(EndRef),
    OutOfMemory,
}

impl From<OutOfMemory> for PlanRefusal {
    ghost from_gives = { λ _ refusal. refusal ≡ NoMemory };

    fn from(_: OutOfMemory) -> Self {
        PlanRefusal::OutOfMemory
    }
}

/// Looks for a required input's target that is no publication.
pub(crate) fn check_required(
    alloc: Global,
    publications: &Names,
    federates: &[FederateRecord],
) -> Result<(), PlanRefusal>
    requires { AreFew federates.now }
    ensures { Says (first_some (missing_at (get_by_text publications.now)) (inputs federates.now)) result }
{
    for (f, federate) in federates.iter().enumerate() {
        check_required_of(alloc, publications, f as u16, federate)?;
    }
    Ok(())
}

fn check_required_of(
    alloc: Global,
    publications: &Names,
    f: u16,
    federate: &FederateRecord,
) -> Result<(), PlanRefusal>
    ensures { Says (first_some (missing_at (get_by_text publications.now)) (interfaces_in federate.now.name f 0 federate.now.inputs)) result }
{
    for input in federate.inputs.as_slice() {
        check_input(alloc, publications, f, input)?;
    }
    Ok(())
}

fn check_input(
    alloc: Global,
    publications: &Names,
    f: u16,
    input: &InputRecord,
) -> Result<(), PlanRefusal>
    ensures { (owner : List ℕ) (n : ℕ) → Says (missing_at (get_by_text publications.now) (one_in owner f n input.now)) result }
{
    if !input.required {
        return Ok(());
    }
    match first_unknown(publications, input.targets.as_slice()) {
        Some(name) => {
            let name = name.copy(alloc)?;
            Err(PlanRefusal::MissingRequired { fed: f, name })
        }
        None => Ok(()),
    }
}

/// Looks for an input whose target publication has values of another kind.
pub(crate) fn check_kinds(
    publications: &Names,
    federates: &[FederateRecord],
) -> Result<(), PlanRefusal>
    requires few { AreFew federates.now }
    requires known { ArePublications federates.now (get_by_text publications.now) }
    ensures { Says (first_some (mismatch_at (get_by_text publications.now) federates.now) (inputs federates.now)) result }
{
    for (f, federate) in federates.iter().enumerate() {
        check_kinds_of(publications, federates, f as u16, federate)?;
    }
    Ok(())
}

fn check_kinds_of(
    publications: &Names,
    federates: &[FederateRecord],
    f: u16,
    federate: &FederateRecord,
) -> Result<(), PlanRefusal>
    requires few { length federate.now.inputs ≤ most_interfaces }
    requires known { ArePublications federates.now (get_by_text publications.now) }
    ensures { Says (first_some (mismatch_at (get_by_text publications.now) federates.now)
        (interfaces_in federate.now.name f 0 federate.now.inputs)) result }
{
    for (index, input) in federate.inputs.as_slice().iter().enumerate() {
        check_kind(publications, federates, f, index as u16, input)?;
    }
    Ok(())
}

fn check_kind(
    publications: &Names,
    federates: &[FederateRecord],
    f: u16,
    index: u16,
    input: &InputRecord,
) -> Result<(), PlanRefusal>
    requires { ArePublications federates.now (get_by_text publications.now) }
    ensures { (owner : List ℕ) → Says (mismatch_at (get_by_text publications.now) federates.now (one_in owner f index input.now)) result }
{
    let kind = match input.kind {
        Some(kind) => kind,
        None => return Ok(()),
    };
    match first_other(publications, federates, kind, input.targets.as_slice()) {
        Some(publication) => Err(PlanRefusal::KindMismatch {
            fed: f,
            input: index,
            publication,
        }),
        None => Ok(()),
    }
}

// Of these names the first publication of another kind.
fn first_other(
    publications: &Names,
    federates: &[FederateRecord],
    kind: ValueKind,
    targets: &[Text],
) -> Option<EndRef>
    requires { ArePublications federates.now (get_by_text publications.now) }
    ensures { result ≡ first_some (other_kind_of (get_by_text publications.now) federates.now kind) targets.now }
{
    for name in targets {
        let other = other_kind(publications, federates, kind, name);
        if other.is_some() {
            return other;
        }
    }
    None
}

// The publication of this name, where it is of another kind.
fn other_kind(
    publications: &Names,
    federates: &[FederateRecord],
    kind: ValueKind,
    name: &Text,
) -> Option<EndRef>
    requires { ArePublications federates.now (get_by_text publications.now) }
    ensures { result ≡ other_kind_of (get_by_text publications.now) federates.now kind name.now }
{
    match publications.get(name.as_str()) {
        Some(at) if !same_kind(kind_of(federates, *at), kind) => Some(*at),
        _ => None,
    }
}

fn kind_of(federates: &[FederateRecord], at: EndRef) -> ValueKind
    requires { IsPublication federates.now at }
    ensures { result ≡ (publication_at federates.now at).kind }
{
    let federate = &federates[at.fed as usize];
    federate.publications.at(at.index as usize).kind
}

/// Whether two kinds are the same.
pub(crate) fn same_kind(a: ValueKind, b: ValueKind) -> bool
    ensures { result ≡ same_kind_of a b }
{
    a == b
}

/// Looks for a name to which a filter refers and which no endpoint has.
pub(crate) fn check_filters(
    alloc: Global,
    endpoints: &Names,
    federates: &[FederateRecord],
) -> Result<(), PlanRefusal>
    requires { AreFew federates.now }
    ensures { Says (first_some (target_at (get_by_text endpoints.now)) (filters federates.now)) result }
{
    for (f, federate) in federates.iter().enumerate() {
        check_filters_of(alloc, endpoints, f as u16, federate)?;
    }
    Ok(())
}

fn check_filters_of(
    alloc: Global,
    endpoints: &Names,
    f: u16,
    federate: &FederateRecord,
) -> Result<(), PlanRefusal>
    ensures { Says (first_some (target_at (get_by_text endpoints.now)) (interfaces_in federate.now.name f 0 federate.now.filters)) result }
{
    for filter in federate.filters.as_slice() {
        check_filter(alloc, endpoints, filter)?;
    }
    Ok(())
}

fn check_filter(alloc: Global, endpoints: &Names, filter: &FilterRecord) -> Result<(), PlanRefusal>
    ensures { (owner : List ℕ) (f n : ℕ) → Says (target_at (get_by_text endpoints.now) (one_in owner f n filter.now)) result }
{
    check_targets(alloc, endpoints, filter.source_of.as_slice())?;
    check_targets(alloc, endpoints, filter.destination_of.as_slice())?;
    match &filter.kind {
        FilterKind::Reroute(name) => check_reroute(alloc, endpoints, name),
        _ => Ok(()),
    }
}

fn check_targets(alloc: Global, endpoints: &Names, targets: &[Text]) -> Result<(), PlanRefusal>
    ensures { Says (option_map (λ name. UnknownTarget name) (unknown_of (get_by_text endpoints.now) targets.now)) result }
{
    match first_unknown(endpoints, targets) {
        Some(name) => {
            let name = name.copy(alloc)?;
            Err(PlanRefusal::FilterTarget(name))
        }
        None => Ok(()),
    }
}

fn check_reroute(alloc: Global, endpoints: &Names, name: &Text) -> Result<(), PlanRefusal>
    ensures { Says (if is_none (get_by_text endpoints.now name.now) then Some (UnknownTarget name.now) else None) result }
{
    if endpoints.contains_key(name.as_str()) {
        return Ok(());
    }
    let name = name.copy(alloc)?;
    Err(PlanRefusal::FilterTarget(name))
}

// The first of these names that isn't in the table.
fn first_unknown<'a>(names: &Names, targets: &'a [Text]) -> Option<&'a Text>
    ensures { option_copied result ≡ unknown_of (get_by_text names.now) targets.now }
{
    targets
        .iter()
        .find(|name| !names.contains_key(name.as_str()))
}
