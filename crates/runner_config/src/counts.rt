//! A broker's words: that they are one's, and the federates that it counts (docs/FORMATS.md, Broker).
ghost use Rattle.std.specs.Prelude.{◌≡◌, nat_eq, codes, option_map};
ghost use Rattle.std.specs.List.{list_all, ends_with};
ghost use Rattle.helics_time.specs.Spelled.{is_digit};
ghost use Rattle.runner_config.specs.Counts.{is_broker_word, is_broker, is_digits, is_other, after, count_at, counts_other};

use hel_lists::Text;

fn ends_so(word: &str) -> bool
    ensures { result ≡ ends_with nat_eq word.now (codes "/helics_broker") }
{
    word.ends_with("/helics_broker")
}

fn is_broker_word(word: &str) -> bool
    ensures { result ≡ is_broker_word word.now }
{
    word == "helics_broker" || ends_so(word)
}

/// Whether words start a broker.
pub fn is_broker(words: &[Text]) -> bool
    ensures { result ≡ is_broker words.now }
{
    match words {
        [first, ..] => is_broker_word(first.as_str()),
        [] => false,
    }
}

fn all_digits(bytes: &[u8]) -> bool
    ensures { result ≡ list_all is_digit bytes.now }
{
    bytes.iter().all(|&c| matches!(c, b'0'..=b'9'))
}

fn is_digits(text: &str) -> bool
    ensures { result ≡ is_digits text.now }
{
    !text.is_empty() && all_digits(text.as_bytes())
}

// Whether digits spell another number.
#[tactic(auto, using(crate::proofs::Growing::above))]
fn is_other(count: u64, digits: &str) -> bool
    ensures { result ≡ is_other count digits.now }
{
    let count = u128::from(count);
    let mut number = 0;
    let mut rest = digits.as_bytes();
    while let [digit, behind @ ..] = rest {
        number = 10 * number + u128::from(digit.saturating_sub(b'0'));
        if number > count {
            return true;
        }
        rest = behind;
    }
    number != count
}

// What stands behind a prefix.
fn after<'w>(word: &'w str, prefix: &str) -> Option<&'w str>
    ensures { option_map (λ t. t.now) result ≡ after prefix.now word.now }
{
    word.strip_prefix(prefix)
}

// The digits of a count that stand in a word, or in the next where the word asks for that.
fn count_at<'w>(word: &'w str, behind: &'w [Text]) -> &'w str
    ensures { result.now ≡ count_at word.now behind.now }
{
    if word == "-f" || word == "--federates" {
        return match behind {
            [next, ..] => next.as_str(),
            [] => "",
        };
    }
    if let Some(count) = after(word, "--federates=") {
        return count;
    }
    match after(word, "-f") {
        Some(count) => count,
        None => "",
    }
}

/// Whether one of a broker's words counts other federates than so many.
pub fn counts_other(count: u64, words: &[Text]) -> bool
    ensures { result ≡ counts_other count words.now }
{
    let mut rest = words;
    while let [word, behind @ ..] = rest {
        let digits = count_at(word.as_str(), behind);
        if is_digits(digits) && is_other(count, digits) {
            return true;
        }
        rest = behind;
    }
    false
}
