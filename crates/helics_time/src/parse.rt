ghost use Rattle.std.specs.Prelude.{◌≡◌, ◌<◌, ◌≤◌, ◌+◌, ◌*◌, ◌-◌, ◌^◌, length, take_while, slice_index, nat_lt, IfSome, true, Some, None, Ok, Err, if◌then◌else◌};
ghost use Rattle.std.specs.Str.{all_ascii_digits};
ghost use Rattle.helics_time.specs.Spelled.{is_digit, fraction_of, after_fraction, after_spaces, unit_of, number_of, time_of};
ghost use Rattle.helics_time.specs.Steps.{part_of, whole_and_part, steps_of};
ghost use Rattle.helics_time.specs.Time.{max_time};

use crate::MAX;
use thiserror::Error;

/// Why a text is no time. The earlier reason stands before the later (docs/RULES.md, Times as text).
#[derive(Clone, Copy, Debug, PartialEq, Eq, Error)]
pub enum TimeText {
    /// It doesn't begin with a digit.
    #[error("NotANumber")]
    NotANumber,
    /// What follows the number and its spaces is no unit.
    #[error("UnknownUnit")]
    UnknownUnit,
    /// It isn't a whole number of nanoseconds.
    #[error("NotWhole")]
    NotWhole,
    /// It is past `MAX`.
    #[error("TooLarge")]
    TooLarge,
}

/// The nanoseconds of a text: digits, a point and more digits where there is a fraction, spaces,
/// and `ns`, `us`, `ms`, `s`, `min`, `h` or nothing, which means seconds: `1.5us` is 1,500
/// (docs/RULES.md, Times as text).
pub fn parse_time(text: &str) -> Result<u64, TimeText>
    ensures { result ≡ time_of text.now }
{
    read_time(text.as_bytes())
}

#[tactic(auto, unfolding(crate::specs::Steps::steps_of))]
fn read_time(text: &[u8]) -> Result<u64, TimeText>
    ensures { result ≡ steps_of text.now }
{
    let (whole, rest) = text.split_at(digit_count(text));
    if whole.is_empty() {
        return Err(TimeText::NotANumber);
    }
    let (fraction, rest) = split_fraction(rest);
    match unit(without_spaces(rest)) {
        Some(unit) => in_unit(whole, fraction, unit),
        None => Err(TimeText::UnknownUnit),
    }
}

// How many digits stand in front.
fn digit_count(text: &[u8]) -> usize
    ensures value { result ≡ length (take_while is_digit text.now) }
    ensures within { result ≤ length text.now }
{
    text.iter().take_while(|byte| byte.is_ascii_digit()).count()
}

// The digits behind a point in front, and what follows them.
fn split_fraction(rest: &[u8]) -> (&[u8], &[u8])
    ensures digits { result.0.now ≡ fraction_of rest.now }
    ensures rest { result.1.now ≡ after_fraction rest.now }
{
    if let [b'.', behind @ ..] = rest {
        let (digits, after) = behind.split_at(digit_count(behind));
        if !digits.is_empty() {
            return (digits, after);
        }
    }
    (&rest[..0], rest)
}

fn without_spaces(rest: &[u8]) -> &[u8]
    ensures { result.now ≡ after_spaces rest.now }
{
    let mut rest = rest;
    while let [b' ', after @ ..] = rest {
        rest = after;
    }
    rest
}

// The nanoseconds of a unit.
fn unit(word: &[u8]) -> Option<u64>
    ensures { result ≡ unit_of word.now }
{
    match word {
        b"ns" => Some(1),
        b"us" => Some(1_000),
        b"ms" => Some(1_000_000),
        b"s" | b"" => Some(1_000_000_000),
        b"min" => Some(60_000_000_000),
        b"h" => Some(3_600_000_000_000),
        _ => None,
    }
}

fn in_unit(whole: &[u8], fraction: &[u8], unit: u64) -> Result<u64, TimeText>
    requires whole { all_ascii_digits whole.now ≡ true }
    requires fraction { all_ascii_digits fraction.now ≡ true }
    requires unit { (0 < unit) × (unit ≤ 3600000000000) }
    ensures { result ≡ whole_and_part whole.now fraction.now unit }
{
    let Some(part) = part(fraction, unit) else {
        return Err(TimeText::NotWhole);
    };
    match number(whole) {
        Some(whole) => total(whole, unit, part),
        None => Err(TimeText::TooLarge),
    }
}

// The nanoseconds of the digits behind a point, where they are whole. It begins with the last
// digit, so no power of ten is needed and nothing grows past ten units.
fn part(digits: &[u8], unit: u64) -> Option<u64>
    requires digits { all_ascii_digits digits.now ≡ true }
    requires unit { (0 < unit) × (unit ≤ 3600000000000) }
    ensures value { result ≡ part_of unit digits.now }
    ensures below { IfSome result (λ part. part < unit) }
{
    let mut part = 0;
    let mut place = digits.len();
    while place > 0 {
        place -= 1;
        let tenths = digit_at(digits, place) * unit + part;
        if tenths % 10 != 0 {
            return None;
        }
        part = tenths / 10;
    }
    Some(part)
}

fn digit_at(digits: &[u8], place: usize) -> u64
    requires digits { all_ascii_digits digits.now ≡ true }
    requires place { place < length digits.now }
    ensures value { result ≡ slice_index digits.now place - 48 }
    ensures digit { result < 10 }
{
    u64::from(digits[place] - b'0')
}

// The number that digits spell, where it fits 64 bits.
fn number(digits: &[u8]) -> Option<u64>
    requires { all_ascii_digits digits.now ≡ true }
    ensures { result ≡ (if nat_lt (number_of digits.now) (2 ^ 64) then Some (number_of digits.now) else None) }
{
    let mut number: u64 = 0;
    for place in 0..digits.len() {
        let digit = digit_at(digits, place);
        if number > (u64::MAX - digit) / 10 {
            return None;
        }
        number = 10 * number + digit;
    }
    Some(number)
}

// The nanoseconds of whole units and a part.
fn total(whole: u64, unit: u64, part: u64) -> Result<u64, TimeText>
    requires { part < 2 ^ 62 }
    ensures { result ≡ (if nat_lt max_time (whole * unit + part) then Err TimeText.TooLarge else Ok (whole * unit + part)) }
{
    match whole.checked_mul(unit) {
        Some(time) if time <= MAX && part <= MAX - time => Ok(time + part),
        _ => Err(TimeText::TooLarge),
    }
}
