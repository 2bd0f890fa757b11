// What one value holds.
ghost use Rattle.std.specs.Prelude.{◌≡◌};
ghost use Rattle.serde_json.specs.View.{view};
ghost use Rattle.json_reading.specs.Reading.{Gives, HadMemory};
ghost use Rattle.json_reading.specs.Leaves.{GivesText, text_of, flag_of, time_of, at_most, whole_of, integer_of};

use crate::fields::Reader;
use crate::refusal::{ConfigCause, ConfigRefusal};
use hel_lists::Text;
use serde_json::Value;
use std::alloc::Global;

/// A text: NotAText.
pub fn text(value: &Value) -> Result<&str, ConfigCause>
    ensures { GivesText result (text_of (view value.now)) }
{
    match value.as_str() {
        Some(text) => Ok(text),
        None => Err(ConfigCause::NotAText),
    }
}

/// True or false: NotABool.
pub fn flag(value: &Value) -> Result<bool, ConfigCause>
    ensures { result ≡ flag_of (view value.now) }
{
    value.as_bool().ok_or(ConfigCause::NotABool)
}

/// A time of at most so many nanoseconds: a whole number of seconds, or a text of a time.
/// NotATime, Time, OutOfRange.
pub fn time(value: &Value, most: u64) -> Result<u64, ConfigCause>
    ensures { result ≡ time_of most (view value.now) }
{
    match value {
        Value::Number(number) => match number.as_u64() {
            Some(seconds) => match seconds.checked_mul(1_000_000_000) {
                Some(time) => at_most(most, time),
                None => Err(ConfigCause::OutOfRange),
            },
            None => Err(ConfigCause::NotATime),
        },
        Value::String(text) => match helics_time::parse_time(text.as_str()) {
            Ok(time) => at_most(most, time),
            Err(refusal) => Err(ConfigCause::Time(refusal)),
        },
        _ => Err(ConfigCause::NotATime),
    }
}

fn at_most(most: u64, number: u64) -> Result<u64, ConfigCause>
    ensures { result ≡ at_most most number }
{
    if most < number {
        Err(ConfigCause::OutOfRange)
    } else {
        Ok(number)
    }
}

/// An integer from `least` to `most`: NotANumber, OutOfRange.
pub fn whole(value: &Value, least: u64, most: u64) -> Result<u64, ConfigCause>
    ensures { result ≡ whole_of least most (view value.now) }
{
    let Value::Number(number) = value else {
        return Err(ConfigCause::NotANumber);
    };
    match number.as_u64() {
        Some(number) if number < least => Err(ConfigCause::OutOfRange),
        Some(number) => at_most(most, number),
        None if number.is_i64() => Err(ConfigCause::OutOfRange),
        None => Err(ConfigCause::NotANumber),
    }
}

/// An integer of 64 signed bits: NotANumber, OutOfRange.
pub fn integer(value: &Value) -> Result<i64, ConfigCause>
    ensures { result ≡ integer_of (view value.now) }
{
    let Value::Number(number) = value else {
        return Err(ConfigCause::NotANumber);
    };
    match number.as_i64() {
        Some(number) => Ok(number),
        None if number.is_u64() => Err(ConfigCause::OutOfRange),
        None => Err(ConfigCause::NotANumber),
    }
}

/// Reads any text.
#[derive(Clone, Copy, Debug, PartialEq, Eq)]
pub struct AnyText;

impl Reader for AnyText {
    ghost use Rattle.json_reading.specs.Leaves.{any_text};

    type Output = Text;

    ghost reads = { λ reader. any_text };

    fn read(&self, alloc: Global, value: &Value) -> Result<Text, ConfigRefusal> {
        match text(value) {
            Ok(text) => match Text::from_str(alloc, text) {
                Ok(text) => Ok(text),
                Err(_) => Err(ConfigRefusal::memory(alloc)),
            },
            Err(cause) => Err(ConfigRefusal::of(alloc, cause)),
        }
    }
}

/// Reads a text of at most so many bytes: OutOfRange.
#[derive(Clone, Copy, Debug, PartialEq, Eq)]
pub struct TextUpTo {
    pub most: usize,
}

impl Reader for TextUpTo {
    ghost use Rattle.json_reading.specs.Leaves.{text_up_to};

    type Output = Text;

    ghost reads = { λ reader. text_up_to reader.most };

    fn read(&self, alloc: Global, value: &Value) -> Result<Text, ConfigRefusal> {
        match text(value) {
            Ok(text) if text.len() > self.most => {
                Err(ConfigRefusal::of(alloc, ConfigCause::OutOfRange))
            }
            Ok(text) => match Text::from_str(alloc, text) {
                Ok(text) => Ok(text),
                Err(_) => Err(ConfigRefusal::memory(alloc)),
            },
            Err(cause) => Err(ConfigRefusal::of(alloc, cause)),
        }
    }
}

/// Reads true or false.
#[derive(Clone, Copy, Debug, PartialEq, Eq)]
pub struct TrueOrFalse;

impl Reader for TrueOrFalse {
    ghost use Rattle.json_reading.specs.Leaves.{true_or_false};

    type Output = bool;

    ghost reads = { λ reader. true_or_false };

    fn read(&self, alloc: Global, value: &Value) -> Result<bool, ConfigRefusal>
        ensures told { Gives (λ x. x) result (true_or_false (view value.now)) }
        ensures memory { HadMemory result }
    {
        match flag(value) {
            Ok(flag) => Ok(flag),
            Err(cause) => Err(ConfigRefusal::of(alloc, cause)),
        }
    }
}

/// Reads a time of at most so many nanoseconds.
#[derive(Clone, Copy, Debug, PartialEq, Eq)]
pub struct TimeUpTo {
    pub most: u64,
}

impl Reader for TimeUpTo {
    ghost use Rattle.json_reading.specs.Leaves.{time_up_to};

    type Output = u64;

    ghost reads = { λ reader. time_up_to reader.most };

    fn read(&self, alloc: Global, value: &Value) -> Result<u64, ConfigRefusal>
        ensures told { Gives (λ x. x) result (time_up_to self.now.most (view value.now)) }
        ensures memory { HadMemory result }
    {
        match time(value, self.most) {
            Ok(time) => Ok(time),
            Err(cause) => Err(ConfigRefusal::of(alloc, cause)),
        }
    }
}

/// Reads an integer between two bounds, which are allowed.
#[derive(Clone, Copy, Debug, PartialEq, Eq)]
pub struct WholeBetween {
    pub least: u64,
    pub most: u64,
}

impl Reader for WholeBetween {
    ghost use Rattle.json_reading.specs.Leaves.{whole_between};

    type Output = u64;

    ghost reads = { λ reader. whole_between reader.least reader.most };

    fn read(&self, alloc: Global, value: &Value) -> Result<u64, ConfigRefusal>
        ensures told { Gives (λ x. x) result (whole_between self.now.least self.now.most (view value.now)) }
        ensures memory { HadMemory result }
    {
        match whole(value, self.least, self.most) {
            Ok(number) => Ok(number),
            Err(cause) => Err(ConfigRefusal::of(alloc, cause)),
        }
    }
}

/// Reads an integer of 64 signed bits.
#[derive(Clone, Copy, Debug, PartialEq, Eq)]
pub struct AnyInteger;

impl Reader for AnyInteger {
    ghost use Rattle.json_reading.specs.Leaves.{any_integer};

    type Output = i64;

    ghost reads = { λ reader. any_integer };

    fn read(&self, alloc: Global, value: &Value) -> Result<i64, ConfigRefusal>
        ensures told { Gives (λ x. x) result (any_integer (view value.now)) }
        ensures memory { HadMemory result }
    {
        match integer(value) {
            Ok(number) => Ok(number),
            Err(cause) => Err(ConfigRefusal::of(alloc, cause)),
        }
    }
}
