// The words that stand for kinds of values and for what a filter does.
ghost use Rattle.std.specs.Prelude.{◌≡◌};
ghost use Rattle.serde_json.specs.View.{view};
ghost use Rattle.fed_config.specs.Words.{named_in, kinds, input_kinds, operations};

use hel_values::ValueKind;
use json_reading::{ConfigCause, ConfigRefusal, Reader, text};
use serde_json::Value;
use std::alloc::Global;

/// What a filter does.
#[derive(Clone, Copy, Debug, PartialEq, Eq)]
pub enum Operation {
    Delay,
    RandomDrop,
    Reroute,
}

fn kind_named(word: &str) -> Option<ValueKind>
    ensures { result ≡ named_in kinds word.now }
{
    match word {
        "int" | "int64" | "integer" => Some(ValueKind::Int),
        "string" => Some(ValueKind::Text),
        "raw" | "bytes" => Some(ValueKind::Bytes),
        _ => None,
    }
}

fn input_kind_named(word: &str) -> Option<Option<ValueKind>>
    ensures { result ≡ named_in input_kinds word.now }
{
    match kind_named(word) {
        Some(kind) => Some(Some(kind)),
        None if word == "any" => Some(None),
        None => None,
    }
}

fn operation_named(word: &str) -> Option<Operation>
    ensures { result ≡ named_in operations word.now }
{
    match word {
        "delay" => Some(Operation::Delay),
        "random_drop" | "randomdrop" => Some(Operation::RandomDrop),
        "reroute" => Some(Operation::Reroute),
        _ => None,
    }
}

/// Reads the kind of a publication's values.
#[derive(Clone, Copy, Debug, PartialEq, Eq)]
pub struct KindWord;

impl Reader for KindWord {
    ghost use Rattle.fed_config.specs.Words.{word_in, kinds};

    type Output = ValueKind;

    ghost reads = { λ reader. word_in kinds };

    fn read(&self, alloc: Global, value: &Value) -> Result<ValueKind, ConfigRefusal> {
        match text(value) {
            Ok(word) => match kind_named(word) {
                Some(kind) => Ok(kind),
                None => Err(ConfigRefusal::of(alloc, ConfigCause::UnknownWord)),
            },
            Err(cause) => Err(ConfigRefusal::of(alloc, cause)),
        }
    }
}

/// Reads the kind of values that an input takes, or none where it takes any.
#[derive(Clone, Copy, Debug, PartialEq, Eq)]
pub struct InputKindWord;

impl Reader for InputKindWord {
    ghost use Rattle.fed_config.specs.Words.{word_in, input_kinds};

    type Output = Option<ValueKind>;

    ghost reads = { λ reader. word_in input_kinds };

    fn read(&self, alloc: Global, value: &Value) -> Result<Option<ValueKind>, ConfigRefusal> {
        match text(value) {
            Ok(word) => match input_kind_named(word) {
                Some(kind) => Ok(kind),
                None => Err(ConfigRefusal::of(alloc, ConfigCause::UnknownWord)),
            },
            Err(cause) => Err(ConfigRefusal::of(alloc, cause)),
        }
    }
}

/// Reads what a filter does.
#[derive(Clone, Copy, Debug, PartialEq, Eq)]
pub struct OperationWord;

impl Reader for OperationWord {
    ghost use Rattle.fed_config.specs.Words.{word_in, operations};

    type Output = Operation;

    ghost reads = { λ reader. word_in operations };

    fn read(&self, alloc: Global, value: &Value) -> Result<Operation, ConfigRefusal> {
        match text(value) {
            Ok(word) => match operation_named(word) {
                Some(operation) => Ok(operation),
                None => Err(ConfigRefusal::of(alloc, ConfigCause::UnknownWord)),
            },
            Err(cause) => Err(ConfigRefusal::of(alloc, cause)),
        }
    }
}
