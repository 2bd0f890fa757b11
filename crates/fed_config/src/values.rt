// What a script publishes and sends, and with what its federate fails.
ghost use Rattle.std.specs.Prelude.{◌≡◌};
ghost use Rattle.serde_json.specs.View.{view};
ghost use Rattle.json_reading.specs.Reading.{Gives};
ghost use Rattle.fed_config.specs.Values.{hex_object, short_text};

use hel_values::{Payload, TextValue, Value};
use hex::FromHexError;
use json_reading::{ConfigCause, ConfigRefusal, Reader, integer, members, needed, text};
use serde_json::Value as Json;
use std::alloc::Global;

// Reads bytes in hex, of a text.
#[derive(Clone, Copy, Debug, PartialEq, Eq)]
struct HexText;

impl Reader for HexText {
    ghost use Rattle.fed_config.specs.Values.{hex_text};

    type Output = Payload;

    ghost reads = { λ reader. hex_text };

    fn read(&self, alloc: Global, value: &Json) -> Result<Payload, ConfigRefusal> {
        let text = match text(value) {
            Ok(text) => text,
            Err(cause) => return Err(ConfigRefusal::of(alloc, cause)),
        };
        match hex::decode(alloc, text.as_bytes()) {
            Ok(bytes) => match Payload::of(bytes) {
                Ok(payload) => Ok(payload),
                Err(_) => Err(ConfigRefusal::of(alloc, ConfigCause::OutOfRange)),
            },
            Err(FromHexError::OutOfMemory) => Err(ConfigRefusal::memory(alloc)),
            Err(_) => Err(ConfigRefusal::of(alloc, ConfigCause::BadHex)),
        }
    }
}

// Bytes, of an object with a text in hex.
fn bytes(alloc: Global, value: &Json) -> Result<Payload, ConfigRefusal>
    ensures { Gives (λ b. b) result (hex_object (view value.now)) }
{
    let object = members(alloc, value, &["hex"])?;
    needed(alloc, object, "hex", &HexText)
}

fn short_text(alloc: Global, text: &str) -> Result<TextValue, ConfigRefusal>
    ensures { Gives (λ t. t) result (short_text text.now) }
{
    let Ok(text) = String::from_str(alloc, text) else {
        return Err(ConfigRefusal::memory(alloc));
    };
    match TextValue::of(text) {
        Ok(text) => Ok(text),
        Err(_) => Err(ConfigRefusal::of(alloc, ConfigCause::OutOfRange)),
    }
}

fn short_payload(alloc: Global, text: &str) -> Result<Payload, ConfigRefusal>
    ensures { Gives (λ b. b) result (short_text text.now) }
{
    let Ok(bytes) = Vec::from_slice(alloc, text.as_bytes()) else {
        return Err(ConfigRefusal::memory(alloc));
    };
    match Payload::of(bytes) {
        Ok(payload) => Ok(payload),
        Err(_) => Err(ConfigRefusal::of(alloc, ConfigCause::OutOfRange)),
    }
}

/// Reads a value to be published: an integer, a text, or bytes.
#[derive(Clone, Copy, Debug, PartialEq, Eq)]
pub struct ValueReader;

impl Reader for ValueReader {
    ghost use Rattle.fed_config.specs.Values.{value_of};

    type Output = Value;

    ghost reads = { λ reader. value_of };

    fn read(&self, alloc: Global, value: &Json) -> Result<Value, ConfigRefusal> {
        match value {
            Json::Number(_) => match integer(value) {
                Ok(number) => Ok(Value::Int(number)),
                Err(cause) => Err(ConfigRefusal::of(alloc, cause)),
            },
            Json::String(text) => Ok(Value::Text(short_text(alloc, text.as_str())?)),
            Json::Object(_) => Ok(Value::Bytes(bytes(alloc, value)?)),
            _ => Err(ConfigRefusal::of(alloc, ConfigCause::NotANumber)),
        }
    }
}

/// Reads what is sent: a text or bytes.
#[derive(Clone, Copy, Debug, PartialEq, Eq)]
pub struct DataReader;

impl Reader for DataReader {
    ghost use Rattle.fed_config.specs.Values.{data_of};

    type Output = Payload;

    ghost reads = { λ reader. data_of };

    fn read(&self, alloc: Global, value: &Json) -> Result<Payload, ConfigRefusal> {
        match value {
            Json::Number(number) if number.is_f64() => {
                Err(ConfigRefusal::of(alloc, ConfigCause::NotANumber))
            }
            Json::Number(_) => Err(ConfigRefusal::of(alloc, ConfigCause::NotAText)),
            Json::String(text) => short_payload(alloc, text.as_str()),
            Json::Object(_) => bytes(alloc, value),
            _ => Err(ConfigRefusal::of(alloc, ConfigCause::NotANumber)),
        }
    }
}

/// Reads the text with which a federate fails.
#[derive(Clone, Copy, Debug, PartialEq, Eq)]
pub struct FailureReader;

impl Reader for FailureReader {
    ghost use Rattle.fed_config.specs.Values.{failure_of};

    type Output = TextValue;

    ghost reads = { λ reader. failure_of };

    fn read(&self, alloc: Global, value: &Json) -> Result<TextValue, ConfigRefusal> {
        match text(value) {
            Ok(text) => short_text(alloc, text),
            Err(cause) => Err(ConfigRefusal::of(alloc, cause)),
        }
    }
}
