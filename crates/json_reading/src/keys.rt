// Keys of an object, compared without their underscores and with their ASCII letters lowered.
ghost use Rattle.std.specs.Prelude.{◌≡◌, string_bytes, option_map, count_by};
ghost use Rattle.serde_json.specs.View.{view};
ghost use Rattle.json_reading.specs.Keys.{same_key_of, member_at, pairs_of, is_doubled, texts_of, object_of};
ghost use Rattle.json_reading.specs.Reading.{Gives, HadMemory, members_of};

use crate::refusal::{ConfigCause, ConfigRefusal};
use serde_json::{Map, Value};
use std::alloc::Global;

/// The members of a JSON object.
pub type Object = Map<String, Value>;

/// Whether a key as a file spells it stands for a key of a table, which has small letters alone
/// (docs/FORMATS.md, Keys).
pub fn same_key(spelled: &str, key: &str) -> bool
    ensures { result ≡ same_key_of key.now spelled.now }
{
    let mut rest = key.as_bytes();
    for byte in spelled.as_bytes() {
        if *byte != b'_' {
            match rest {
                [first, later @ ..] if *first == byte.to_ascii_lowercase() => rest = later,
                _ => return false,
            }
        }
    }
    rest.is_empty()
}

/// The first member that stands for a key: the key as it is spelled, and the value.
pub fn member<'v>(object: &'v Object, key: &str) -> Option<(&'v str, &'v Value)>
    ensures { option_map (λ m. (m.0.now, view m.1.now)) result ≡ member_at key.now (pairs_of object.now.entries) }
{
    for (spelled, value) in object.iter() {
        if same_key(spelled.as_str(), key) {
            return Some((spelled.as_str(), value));
        }
    }
    None
}

// How many members stand for a key.
fn spellings(object: &Object, key: &str) -> usize
    ensures { result ≡ count_by (λ m. same_key_of key.now m.0) (pairs_of object.now.entries) }
{
    object
        .iter()
        .filter(|member| same_key(member.0.as_str(), key))
        .count()
}

/// Whether two members stand for one key of a table.
pub fn has_doubled(object: &Object, table: &[&str]) -> bool
    ensures { result ≡ is_doubled (texts_of table.now) (pairs_of object.now.entries) }
{
    for key in table {
        if spellings(object, *key) > 1 {
            return true;
        }
    }
    false
}

/// The members of a value, of which no two stand for one key of a table: NotAnObject, DoubledKey.
/// It takes no memory.
pub fn members<'v>(
    alloc: Global,
    value: &'v Value,
    table: &[&str],
) -> Result<&'v Object, ConfigRefusal>
    ensures told { Gives (λ m. pairs_of m.now.entries) result (members_of (texts_of table.now) (view value.now)) }
    ensures memory { HadMemory result }
{
    match as_object(value) {
        None => Err(ConfigRefusal::of(alloc, ConfigCause::NotAnObject)),
        Some(object) => {
            if has_doubled(object, table) {
                Err(ConfigRefusal::of(alloc, ConfigCause::DoubledKey))
            } else {
                Ok(object)
            }
        }
    }
}

/// The members of an object, and `None` where the value is none.
pub fn as_object(value: &Value) -> Option<&Object>
    ensures { option_map (λ m. pairs_of m.now.entries) result ≡ object_of (view value.now) }
{
    value.as_object()
}
