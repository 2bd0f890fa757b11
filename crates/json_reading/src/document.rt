// The JSON value of a file's bytes.
ghost use Rattle.std.specs.Prelude.{◌≡◌, IfOk, option_map};
ghost use Rattle.serde_json.specs.View.{view};
ghost use Rattle.json_reading.specs.Keys.{json_of};

use hel_lists::OutOfMemory;
use serde_json::Value;
use std::alloc::Global;

/// The JSON value that a file's bytes are, and `None` where they are none.
#[tactic(auto, unfolding(crate::specs::Keys::json_of))]
pub fn parse(alloc: Global, bytes: &[u8]) -> Result<Option<Value>, OutOfMemory>
    ensures { IfOk result (λ value. option_map view value ≡ json_of bytes.now) }
{
    match Value::from_slice(alloc, bytes) {
        Ok(value) => Ok(Some(value)),
        Err(e) if e.is_memory() => Err(OutOfMemory),
        Err(_) => Ok(None),
    }
}
