// What stands at a key.
ghost use Rattle.std.specs.Prelude.{◌≡◌, Ok, None, option_map};
ghost use Rattle.json_reading.specs.Keys.{pairs_of, member_at};
ghost use Rattle.json_reading.specs.Reading.{Read, Gives, optional_at, needed_at, optional_either_at, needed_either_at, either_member, under};
ghost use Rattle.serde_json.specs.Data.{Data};
ghost use Rattle.serde_json.specs.View.{view};

use crate::keys::{Object, member};
use crate::refusal::{ConfigCause, ConfigRefusal};
use serde_json::Value;
use std::alloc::Global;

/// A way to read a value.
pub trait Reader {
    type Output;

    // What a value holds, or the first refusal, with its place below the value.
    ghost reads: { Self → Data → Read Self.Output };

    fn read(&self, alloc: Global, value: &Value) -> Result<Self::Output, ConfigRefusal>
        ensures { Gives (λ x. x) result (reads self.now (view value.now)) };
}

/// What stands at a key, where it stands there; where it doesn't, no memory is taken.
pub fn optional<R: Reader>(
    alloc: Global,
    object: &Object,
    key: &str,
    reader: &R,
) -> Result<Option<R::Output>, ConfigRefusal>
    ensures told { Gives (λ x. x) result (optional_at key.now (R.reads reader.now) (pairs_of object.now.entries)) }
    ensures absent { member_at key.now (pairs_of object.now.entries) ≡ None → result ≡ Ok None }
{
    match member(object, key) {
        Some((spelled, value)) => Ok(Some(read_member(alloc, spelled, value, reader)?)),
        None => Ok(None),
    }
}

/// What stands at a key: Missing, at the key.
pub fn needed<R: Reader>(
    alloc: Global,
    object: &Object,
    key: &str,
    reader: &R,
) -> Result<R::Output, ConfigRefusal>
    ensures { Gives (λ x. x) result (needed_at key.now (R.reads reader.now) (pairs_of object.now.entries)) }
{
    match member(object, key) {
        Some((spelled, value)) => read_member(alloc, spelled, value, reader),
        None => Err(ConfigRefusal::at(alloc, key, ConfigCause::Missing)),
    }
}

/// What stands at a key or else at another, where one of them stands there; where none does, no
/// memory is taken.
pub fn optional_either<R: Reader>(
    alloc: Global,
    object: &Object,
    key: &str,
    other: &str,
    reader: &R,
) -> Result<Option<R::Output>, ConfigRefusal>
    ensures told { Gives (λ x. x) result (optional_either_at key.now other.now (R.reads reader.now) (pairs_of object.now.entries)) }
    ensures absent { either_member key.now other.now (pairs_of object.now.entries) ≡ None → result ≡ Ok None }
{
    match either_member(object, key, other) {
        Some((spelled, value)) => Ok(Some(read_member(alloc, spelled, value, reader)?)),
        None => Ok(None),
    }
}

/// What stands at a key or else at another: Missing, at the first of them.
pub fn needed_either<R: Reader>(
    alloc: Global,
    object: &Object,
    key: &str,
    other: &str,
    reader: &R,
) -> Result<R::Output, ConfigRefusal>
    ensures { Gives (λ x. x) result (needed_either_at key.now other.now (R.reads reader.now) (pairs_of object.now.entries)) }
{
    match either_member(object, key, other) {
        Some((spelled, value)) => read_member(alloc, spelled, value, reader),
        None => Err(ConfigRefusal::at(alloc, key, ConfigCause::Missing)),
    }
}

fn either_member<'v>(object: &'v Object, key: &str, other: &str) -> Option<(&'v str, &'v Value)>
    ensures { option_map (λ m. (m.0.now, view m.1.now)) result ≡ either_member key.now other.now (pairs_of object.now.entries) }
{
    match member(object, key) {
        Some(member) => Some(member),
        None => member(object, other),
    }
}

fn read_member<R: Reader>(
    alloc: Global,
    spelled: &str,
    value: &Value,
    reader: &R,
) -> Result<R::Output, ConfigRefusal>
    ensures { Gives (λ x. x) result (under spelled.now (R.reads reader.now (view value.now))) }
{
    match reader.read(alloc, value) {
        Ok(held) => Ok(held),
        Err(refusal) => Err(refusal.under(alloc, spelled)),
    }
}
