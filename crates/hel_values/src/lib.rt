//! Values, payloads and references to interfaces.
#![tactic(auto)]

ghost use Rattle.std.specs.Prelude.{◌≡◌, ◌↔◌, IsTrue};
ghost use Rattle.hel_values.specs.Values.{kind_of, same_value};

use hel_lists::{Copied, OutOfMemory};
use std::alloc::Global;

mod payload;
mod text_value;

pub use payload::{Payload, TooLong};
pub use text_value::{TextValue, TooLongText};

/// The greatest length of a payload or a text value, in bytes.
pub const DATA_LIMIT: usize = 65_536;

/// What a publication's values are.
#[derive(Clone, Copy, Debug, PartialEq, Eq)]
pub enum ValueKind {
    Int,
    Text,
    Bytes,
}

/// A published value.
#[derive(Debug, Drop)]
pub enum Value {
    Int(i64),
    Text(TextValue),
    Bytes(Payload),
}

impl Value {
    /// Which kind of value it is.
    pub fn kind(&self) -> ValueKind
        ensures { result ≡ kind_of self.now }
    {
        match self {
            Value::Int(_) => ValueKind::Int,
            Value::Text(_) => ValueKind::Text,
            Value::Bytes(_) => ValueKind::Bytes,
        }
    }
}

impl Copied for Value {
    fn copy(&self, alloc: Global) -> Result<Self, OutOfMemory> {
        match self {
            Value::Int(number) => Ok(Value::Int(*number)),
            Value::Text(text) => Ok(Value::Text(text.copy(alloc)?)),
            Value::Bytes(payload) => Ok(Value::Bytes(payload.copy(alloc)?)),
        }
    }
}

impl PartialEq for Value {
    ghost use Rattle.std.specs.Cmp.{decided, partial_equiv_from_equiv};
    ghost use Rattle.hel_values.specs.Values.{same_value};
    ghost use Rattle.hel_values.specs.Sameness.{same_value-Decides};

    ghost eq = { same_value };

    ghost laws = { partial_equiv_from_equiv (decided same_value same_value-Decides) };

    fn eq(&self, other: &Value) -> bool
        ensures value { result ≡ same_value self.now other.now }
        ensures same { IsTrue result ↔ (self.now ≡ other.now) }
    {
        match (self, other) {
            (Value::Int(a), Value::Int(b)) => a == b,
            (Value::Text(a), Value::Text(b)) => a == b,
            (Value::Bytes(a), Value::Bytes(b)) => a == b,
            _ => false,
        }
    }
}

impl Eq for Value {
    ghost use Rattle.std.specs.Cmp.{decided};
    ghost use Rattle.hel_values.specs.Values.{same_value};
    ghost use Rattle.hel_values.specs.Sameness.{same_value-Decides};

    ghost laws = { decided same_value same_value-Decides };
}

/// An interface of a federate by its number, counted separately for each kind of interface.
#[derive(Clone, Copy, Debug, PartialEq, Eq)]
pub struct EndRef {
    pub fed: u16,
    pub index: u16,
}

#[cfg(test)]
mod tests;
