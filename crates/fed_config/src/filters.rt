// The filters of a federate file.
ghost use Rattle.std.specs.Prelude.{◌≡◌, ◌^◌, ℕ, List, codes, option_map, unwrap_or, [], Option, Ok, IfOk};
ghost use Rattle.serde_json.specs.View.{view, items_view};
ghost use Rattle.interface_names.specs.Filter.{KeepsBounds};
ghost use Rattle.helics_time.specs.Time.{longest_span};
ghost use Rattle.interface_names.specs.Limits.{million};
ghost use Rattle.json_reading.specs.Keys.{pairs_of};
ghost use Rattle.json_reading.specs.Reading.{Gives, optional_at};
ghost use Rattle.json_reading.specs.Leaves.{texts_in};
ghost use Rattle.fed_config.specs.Filters.{destinations_check, kind_with, filter_kind_of, checks_of, needed_property, optional_property, property_in, value_of_last, last_named, is_named, value_at, FitsOperation};

use crate::words::{Operation, OperationWord};
use hel_lists::Items;
use interface_names::{FilterKind, FilterRecord};
use json_reading::{
    AnyText, ConfigCause, ConfigRefusal, Object, Reader, TextOrTexts, TimeUpTo, WholeBetween,
    as_object, at_place, each, member, members, needed, optional, optional_either,
};
use serde_json::Value;
use std::alloc::Global;

// A filter's delay.
const DELAY: TimeUpTo = TimeUpTo { most: 1 << 56 };

// The chance of a drop, in millionths.
const CHANCE: WholeBetween = WholeBetween {
    least: 0,
    most: 1_000_000,
};

const SEED: WholeBetween = WholeBetween {
    least: 0,
    most: u64::MAX,
};

/// Reads a filter.
#[derive(Clone, Copy, Debug, PartialEq, Eq)]
pub struct FilterReader;

impl Reader for FilterReader {
    ghost use Rattle.fed_config.specs.Filters.{filter_of};

    type Output = FilterRecord;

    ghost reads = { λ reader. filter_of };

    #[tactic(auto, unfolding(crate::specs::Filters::filter_of))]
    fn read(&self, alloc: Global, value: &Value) -> Result<FilterRecord, ConfigRefusal> {
        let keys = [
            "name",
            "key",
            "sourcetargets",
            "destinationtargets",
            "operation",
            "properties",
        ];
        let object = members(alloc, value, &keys)?;
        let name = optional_either(alloc, object, "name", "key", &AnyText)?;
        let source_of = optional(alloc, object, "sourcetargets", &TextOrTexts)?;
        let destination_of = optional(alloc, object, "destinationtargets", &TextOrTexts)?;
        let operation = needed(alloc, object, "operation", &OperationWord)?;
        let kind = filter_kind(alloc, object, operation)?;
        Ok(FilterRecord {
            name,
            source_of: source_of.unwrap_or(Items::new(alloc)),
            destination_of: destination_of.unwrap_or(Items::new(alloc)),
            kind,
        })
    }
}

// What a filter with these members does. One that reroutes has no destinations.
#[tactic(auto, unfolding(crate::specs::Filters::filter_kind_of))]
fn filter_kind(
    alloc: Global,
    object: &Object,
    operation: Operation,
) -> Result<FilterKind, ConfigRefusal>
    ensures read { Gives (λ k. k) result (filter_kind_of operation (pairs_of object.now.entries)) }
    ensures bounds { IfOk result (λ kind. (found : Option (List (List ℕ)))
        → optional_at (codes "destinationtargets") texts_in (pairs_of object.now.entries) ≡ Ok found
        → KeepsBounds kind (unwrap_or found [])) }
{
    check_destinations(alloc, object, operation)?;
    match member(object, "properties") {
        Some((spelled, properties)) => kind_with(alloc, operation, spelled, properties),
        None => {
            let none = Value::Array(Vec::new(alloc));
            kind_with(alloc, operation, "properties", &none)
        }
    }
}

fn check_destinations(
    alloc: Global,
    object: &Object,
    operation: Operation,
) -> Result<(), ConfigRefusal>
    ensures { Gives (λ u. u) result (destinations_check operation (pairs_of object.now.entries)) }
{
    match operation {
        Operation::Delay | Operation::RandomDrop => Ok(()),
        Operation::Reroute => match member(object, "destinationtargets") {
            Some((spelled, _)) => Err(ConfigRefusal::at(alloc, spelled, ConfigCause::UnknownWord)),
            None => Ok(()),
        },
    }
}

// What a filter does, by the properties that stand at a key spelled so.
fn kind_with(
    alloc: Global,
    operation: Operation,
    spelled: &str,
    properties: &Value,
) -> Result<FilterKind, ConfigRefusal>
    ensures read { Gives (λ k. k) result (kind_with operation (spelled.now, view properties.now)) }
    ensures bounds { IfOk result (λ kind. FitsOperation operation kind) }
{
    if let Err(refusal) = check(alloc, properties) {
        return Err(refusal.under(alloc, spelled));
    }
    match operation {
        Operation::Delay => {
            let delay = needed_property(alloc, spelled, properties, "delay", &DELAY)?;
            Ok(FilterKind::Delay(delay))
        }
        Operation::RandomDrop => {
            let chance = needed_property(alloc, spelled, properties, "dropprob", &CHANCE)?;
            let seed = optional_property(alloc, spelled, properties, "seed", &SEED)?;
            Ok(FilterKind::Drop {
                per_million: chance as u32,
                seed: seed.unwrap_or(0),
            })
        }
        Operation::Reroute => {
            let name = needed_property(alloc, spelled, properties, "newdestination", &AnyText)?;
            Ok(FilterKind::Reroute(name))
        }
    }
}

// Looks at all properties: NotAnObject, DoubledKey, NotAText, Missing.
fn check(alloc: Global, properties: &Value) -> Result<(), ConfigRefusal>
    ensures { Gives (λ u. u) result (checks_of (view properties.now)) }
{
    match properties {
        Value::Array(list) => {
            each(alloc, list.as_slice(), &PropertyCheck)?;
            Ok(())
        }
        Value::Object(_) => PropertyCheck.read(alloc, properties),
        _ => Err(ConfigRefusal::of(alloc, ConfigCause::NotAnObject)),
    }
}

// Reads nothing but that a property has a name and a value.
#[derive(Clone, Copy, Debug, PartialEq, Eq)]
struct PropertyCheck;

impl Reader for PropertyCheck {
    ghost use Rattle.fed_config.specs.Filters.{check_of};

    type Output = ();

    ghost reads = { λ reader. check_of };

    #[tactic(auto, unfolding(crate::specs::Filters::check_of))]
    fn read(&self, alloc: Global, value: &Value) -> Result<(), ConfigRefusal> {
        let object = members(alloc, value, &["name", "value"])?;
        match needed(alloc, object, "name", &AnyText) {
            Ok(_) => {}
            Err(refusal) => return Err(refusal),
        }
        match member(object, "value") {
            Some(_) => Ok(()),
            None => Err(ConfigRefusal::at(alloc, "value", ConfigCause::Missing)),
        }
    }
}

fn needed_property<R: Reader>(
    alloc: Global,
    spelled: &str,
    properties: &Value,
    name: &str,
    reader: &R,
) -> Result<R::Output, ConfigRefusal>
    ensures { Gives (λ x. x) result (needed_property name.now (R.reads reader.now) (spelled.now, view properties.now)) }
{
    match property(alloc, properties, name, reader) {
        Ok(Some(held)) => Ok(held),
        Ok(None) => {
            let refusal = ConfigRefusal::at(alloc, name, ConfigCause::Missing);
            Err(refusal.under(alloc, spelled))
        }
        Err(refusal) => Err(refusal.under(alloc, spelled)),
    }
}

fn optional_property<R: Reader>(
    alloc: Global,
    spelled: &str,
    properties: &Value,
    name: &str,
    reader: &R,
) -> Result<Option<R::Output>, ConfigRefusal>
    ensures { Gives (λ x. x) result (optional_property name.now (R.reads reader.now) (spelled.now, view properties.now)) }
{
    match property(alloc, properties, name, reader) {
        Ok(found) => Ok(found),
        Err(refusal) => Err(refusal.under(alloc, spelled)),
    }
}

// What the last property of a name holds.
fn property<R: Reader>(
    alloc: Global,
    properties: &Value,
    name: &str,
    reader: &R,
) -> Result<Option<R::Output>, ConfigRefusal>
    ensures { Gives (λ x. x) result (property_in name.now (R.reads reader.now) (view properties.now)) }
{
    match properties {
        Value::Array(list) => property_of_list(alloc, list.as_slice(), name, reader),
        Value::Object(_) if is_named(properties, name) => {
            Ok(Some(value_at(alloc, properties, reader)?))
        }
        _ => Ok(None),
    }
}

fn property_of_list<R: Reader>(
    alloc: Global,
    list: &[Value],
    name: &str,
    reader: &R,
) -> Result<Option<R::Output>, ConfigRefusal>
    ensures { Gives (λ x. x) result (value_of_last (R.reads reader.now) (last_named name.now 0 (items_view list.now))) }
{
    match last_named(list, name) {
        Some((place, property)) => match value_at(alloc, property, reader) {
            Ok(held) => Ok(Some(held)),
            Err(refusal) => Err(at_place(alloc, place, refusal)),
        },
        None => Ok(None),
    }
}

fn last_named<'v>(list: &'v [Value], name: &str) -> Option<(usize, &'v Value)>
    ensures { option_map (λ p. (p.0, view p.1.now)) result ≡ last_named name.now 0 (items_view list.now) }
{
    let mut last = None;
    for (place, property) in list.iter().enumerate() {
        if is_named(property, name) {
            last = Some((place, property));
        }
    }
    last
}

fn is_named(property: &Value, name: &str) -> bool
    ensures { result ≡ is_named name.now (view property.now) }
{
    let Some(object) = as_object(property) else {
        return false;
    };
    match member(object, "name") {
        Some((_, value)) => value.as_str() == Some(name),
        None => false,
    }
}

fn value_at<R: Reader>(
    alloc: Global,
    property: &Value,
    reader: &R,
) -> Result<R::Output, ConfigRefusal>
    ensures { Gives (λ x. x) result (value_at (R.reads reader.now) (view property.now)) }
{
    match as_object(property) {
        Some(object) => needed(alloc, object, "value", reader),
        None => Err(ConfigRefusal::at(alloc, "value", ConfigCause::Missing)),
    }
}
