ghost use Rattle.std.specs.Prelude.{◌≡◌, ◌≢◌, ◌≤◌, ◌<◌, ℕ, List, [], ◌∷◌, ◌++◌, length, slice_index_or, false, Some, if◌then◌else◌, IfOk, OnOk};
ghost use Rattle.std.specs.HashMap.{get_by_text};
ghost use Rattle.hel_lists.specs.Members.{IsIn};
ghost use Rattle.interface_names.specs.Limits.{most_interfaces};
ghost use Rattle.hel_values.specs.declared.EndRef.{EndRef};
ghost use Rattle.hel_values.specs.Values.{same_end};
ghost use Rattle.federation_plan.specs.Interfaces.{AreFew, ArePublications, AreEndpoints, is_ref, name_ref, refs_naming, interfaces_in, inputs, filters, federate_at};
ghost use Rattle.federation_plan.specs.Side.{names_on as names_on_side};
ghost use Rattle.federation_plan.specs.Tables.{row_at, entry, HasPlace, ends_with, with_last};

use crate::names::Names;
use hel_lists::{Items, OutOfMemory, Text};
use hel_values::EndRef;
use interface_names::{FederateRecord, FilterRecord, InputRecord};
use std::alloc::Global;

/// For each federate and each of its interfaces of one kind, references to others.
pub(crate) type Table = Items<Items<Items<EndRef>>>;

/// For each publication the inputs that target it, in the order of federates and inputs.
pub(crate) fn targets_table(
    alloc: Global,
    publications: &Names,
    federates: &[FederateRecord],
) -> Result<Table, OutOfMemory>
    requires few { AreFew federates.now }
    requires known { ArePublications federates.now (get_by_text publications.now) }
    ensures places { IfOk result (λ table. (f : ℕ) → length (row_at table f) ≡ length (federate_at federates.now f).publications) }
    ensures entries { IfOk result (λ table. (r : EndRef) → entry table r
        ≡ refs_naming (get_by_text publications.now) (λ i. i.targets) (inputs federates.now) r) }
{
    let mut table = Items::new(alloc);
    for federate in federates {
        table.push(blank_row(alloc, federate.publications.len())?)?;
    }
    attach_inputs(&mut table, publications, federates)?;
    Ok(table)
}

// As many interfaces with no reference.
fn blank_row(alloc: Global, count: usize) -> Result<Items<Items<EndRef>>, OutOfMemory>
    ensures count { IfOk result (λ row. length row ≡ count) }
    ensures blank { IfOk result (λ row. (n : ℕ) → slice_index_or row n [] ≡ []) }
{
    let mut row = Items::new(alloc);
    for _ in 0..count {
        row.push(Items::new(alloc))?;
    }
    Ok(row)
}

fn attach_inputs(
    table: &mut Table,
    publications: &Names,
    federates: &[FederateRecord],
) -> Result<(), OutOfMemory>
    requires few { AreFew federates.now }
    requires places { (name : List ℕ) (r : EndRef) → get_by_text publications.now name ≡ Some r → HasPlace table.old r }
    requires blank { (r : EndRef) → entry table.old r ≡ [] }
    ensures places { OnOk result ((f : ℕ) → length (row_at table.new f) ≡ length (row_at table.old f)) }
    ensures entries { OnOk result ((r : EndRef) → entry table.new r
        ≡ refs_naming (get_by_text publications.now) (λ i. i.targets) (inputs federates.now) r) }
{
    for (f, federate) in federates.iter().enumerate() {
        attach_inputs_of(table, publications, f as u16, federate.inputs.as_slice())?;
    }
    Ok(())
}

fn attach_inputs_of(
    table: &mut Table,
    publications: &Names,
    f: u16,
    inputs: &[InputRecord],
) -> Result<(), OutOfMemory>
    requires few { length inputs.now ≤ most_interfaces }
    requires places { (name : List ℕ) (r : EndRef) → get_by_text publications.now name ≡ Some r → HasPlace table.old r }
    requires earlier { (r q : EndRef) → IsIn q (entry table.old r) → q.fed < f }
    ensures places { OnOk result ((g : ℕ) → length (row_at table.new g) ≡ length (row_at table.old g)) }
    ensures entries { OnOk result ((owner : List ℕ) (r : EndRef) → entry table.new r
        ≡ entry table.old r ++ refs_naming (get_by_text publications.now) (λ i. i.targets) (interfaces_in owner f 0 inputs.now) r) }
{
    for (index, input) in inputs.iter().enumerate() {
        let by = EndRef {
            fed: f,
            index: index as u16,
        };
        attach(table, publications, by, input.targets.as_slice())?;
    }
    Ok(())
}

/// A side of an endpoint: filters stand there for what it sends, or for what it receives.
#[derive(Clone, Copy, Debug)]
pub(crate) enum Side {
    Source,
    Destination,
}

/// For each endpoint the filters that stand on one side of it, in the order of federates and
/// filters.
pub(crate) fn filters_table(
    alloc: Global,
    side: Side,
    endpoints: &Names,
    federates: &[FederateRecord],
) -> Result<Table, OutOfMemory>
    requires few { AreFew federates.now }
    requires known { AreEndpoints federates.now (get_by_text endpoints.now) }
    ensures places { IfOk result (λ table. (f : ℕ) → length (row_at table f) ≡ length (federate_at federates.now f).endpoints) }
    ensures entries { IfOk result (λ table. (r : EndRef) → entry table r
        ≡ refs_naming (get_by_text endpoints.now) (names_on_side side) (filters federates.now) r) }
{
    let mut table = Items::new(alloc);
    for federate in federates {
        table.push(blank_row(alloc, federate.endpoints.len())?)?;
    }
    attach_filters(&mut table, side, endpoints, federates)?;
    Ok(table)
}

fn attach_filters(
    table: &mut Table,
    side: Side,
    endpoints: &Names,
    federates: &[FederateRecord],
) -> Result<(), OutOfMemory>
    requires few { AreFew federates.now }
    requires places { (name : List ℕ) (r : EndRef) → get_by_text endpoints.now name ≡ Some r → HasPlace table.old r }
    requires blank { (r : EndRef) → entry table.old r ≡ [] }
    ensures places { OnOk result ((f : ℕ) → length (row_at table.new f) ≡ length (row_at table.old f)) }
    ensures entries { OnOk result ((r : EndRef) → entry table.new r
        ≡ refs_naming (get_by_text endpoints.now) (names_on_side side) (filters federates.now) r) }
{
    for (f, federate) in federates.iter().enumerate() {
        attach_filters_of(
            table,
            side,
            endpoints,
            f as u16,
            federate.filters.as_slice(),
        )?;
    }
    Ok(())
}

fn attach_filters_of(
    table: &mut Table,
    side: Side,
    endpoints: &Names,
    f: u16,
    filters: &[FilterRecord],
) -> Result<(), OutOfMemory>
    requires few { length filters.now ≤ most_interfaces }
    requires places { (name : List ℕ) (r : EndRef) → get_by_text endpoints.now name ≡ Some r → HasPlace table.old r }
    requires earlier { (r q : EndRef) → IsIn q (entry table.old r) → q.fed < f }
    ensures places { OnOk result ((g : ℕ) → length (row_at table.new g) ≡ length (row_at table.old g)) }
    ensures entries { OnOk result ((owner : List ℕ) (r : EndRef) → entry table.new r
        ≡ entry table.old r ++ refs_naming (get_by_text endpoints.now) (names_on_side side) (interfaces_in owner f 0 filters.now) r) }
{
    for (index, filter) in filters.iter().enumerate() {
        let by = EndRef {
            fed: f,
            index: index as u16,
        };
        attach(table, endpoints, by, names_on(side, filter))?;
    }
    Ok(())
}

// The endpoints on whose side a filter stands.
fn names_on(side: Side, filter: &FilterRecord) -> &[Text]
    ensures { result.now ≡ names_on_side side filter.now }
{
    match side {
        Side::Source => filter.source_of.as_slice(),
        Side::Destination => filter.destination_of.as_slice(),
    }
}

// Puts a reference at each interface that one of the names means.
fn attach(table: &mut Table, names: &Names, by: EndRef, targets: &[Text]) -> Result<(), OutOfMemory>
    requires places { (name : List ℕ) (r : EndRef) → get_by_text names.now name ≡ Some r → HasPlace table.old r }
    requires fresh { (r : EndRef) → ends_with (entry table.old r) by ≡ false }
    ensures places { OnOk result ((f : ℕ) → length (row_at table.new f) ≡ length (row_at table.old f)) }
    ensures entries { OnOk result ((r : EndRef) → entry table.new r
        ≡ entry table.old r ++ (if name_ref (get_by_text names.now) targets.now r then by ∷ [] else [])) }
{
    for name in targets {
        add_named(table, names, by, name)?;
    }
    Ok(())
}

fn add_named(table: &mut Table, names: &Names, by: EndRef, name: &Text) -> Result<(), OutOfMemory>
    requires { (r : EndRef) → get_by_text names.now name.now ≡ Some r → HasPlace table.old r }
    ensures places { OnOk result ((f : ℕ) → length (row_at table.new f) ≡ length (row_at table.old f)) }
    ensures entries { OnOk result ((r : EndRef) → entry table.new r
        ≡ (if is_ref r (get_by_text names.now name.now) then with_last (entry table.old r) by else entry table.old r)) }
{
    match names.get(name.as_str()) {
        Some(at) => add(table, *at, by),
        None => Ok(()),
    }
}

// Puts a reference behind those of an interface, where it isn't the last there.
fn add(table: &mut Table, at: EndRef, by: EndRef) -> Result<(), OutOfMemory>
    requires { HasPlace table.old at }
    ensures places { OnOk result ((f : ℕ) → length (row_at table.new f) ≡ length (row_at table.old f)) }
    ensures entries { OnOk result ((r : EndRef) → entry table.new r ≡ (if same_end r at then with_last (entry table.old r) by else entry table.old r)) }
{
    let row = table.at_mut(at.fed as usize);
    let list = row.at_mut(at.index as usize);
    if is_last(list, by) {
        return Ok(());
    }
    list.push(by)
}

fn is_last(list: &Items<EndRef>, by: EndRef) -> bool
    ensures { result ≡ ends_with list.now by }
{
    match list.as_slice().last() {
        Some(last) => by.fed == last.fed && by.index == last.index,
        None => false,
    }
}
