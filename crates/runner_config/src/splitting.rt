//! The words of a text (docs/FORMATS.md, Words of `exec`).
ghost use Rattle.std.specs.Prelude.{ℕ, ◌≡◌, ◌<◌, ◌++◌, List, [], IfOk, Some, None};
ghost use Rattle.std.specs.Char.{encode_utf8};
ghost use Rattle.runner_config.specs.Splitting.{is_gap, is_quote, words_of, goes_on, word_bytes, longer, all_of, IsOpenOk};

use hel_lists::{Items, OutOfMemory, Text};
use std::alloc::Global;

/// The words of a text, and `None` where a quote doesn't end.
#[tactic(auto, unfolding(crate::specs::Splitting::words_of))]
pub fn split(alloc: Global, text: &str) -> Result<Option<Items<Text>>, OutOfMemory>
    ensures { IfOk result (λ words. words ≡ words_of text.now) }
{
    let mut so_far = SoFar {
        words: Items::new(alloc),
        word: None,
        quote: None,
    };
    for c in text.chars() {
        so_far = so_far.with(alloc, c)?;
    }
    so_far.end()
}

fn is_gap(c: char) -> bool
    ensures { result ≡ is_gap c }
{
    c == ' ' || c == '\t'
}

fn is_quote(c: char) -> bool
    ensures { result ≡ is_quote c }
{
    c == '"' || c == '\''
}

// A text that is split so far: the words that have ended, the word that goes on, and the quote that
// hasn't ended.
#[derive(Drop)]
struct SoFar {
    words: Items<Text>,
    word: Option<String>,
    quote: Option<char>,
}

impl SoFar {
    // One character further.
    fn with(self, alloc: Global, c: char) -> Result<SoFar, OutOfMemory>
        requires { IsOpenOk self.quote }
        ensures quote { IfOk result (λ s. IsOpenOk s.quote) }
        ensures rest { IfOk result (λ s. (rest : List ℕ) → goes_on s rest ≡ goes_on self (encode_utf8 c ++ rest)) }
    {
        match self.quote {
            Some(quote) => self.under_quote(alloc, quote, c),
            None => self.outside(alloc, c),
        }
    }

    fn under_quote(self, alloc: Global, quote: char, c: char) -> Result<SoFar, OutOfMemory>
        requires under { self.quote ≡ Some quote }
        requires small { quote < 128 }
        ensures quote { IfOk result (λ s. IsOpenOk s.quote) }
        ensures rest { IfOk result (λ s. (rest : List ℕ) → goes_on s rest ≡ goes_on self (encode_utf8 c ++ rest)) }
    {
        if c == quote {
            self.quoted(alloc, None)
        } else {
            self.longer(alloc, c)
        }
    }

    #[tactic(auto, using(crate::proofs::Splits::quote_small))]
    fn outside(self, alloc: Global, c: char) -> Result<SoFar, OutOfMemory>
        requires { self.quote ≡ None }
        ensures quote { IfOk result (λ s. IsOpenOk s.quote) }
        ensures rest { IfOk result (λ s. (rest : List ℕ) → goes_on s rest ≡ goes_on self (encode_utf8 c ++ rest)) }
    {
        if is_gap(c) {
            self.ended()
        } else if is_quote(c) {
            self.quoted(alloc, Some(c))
        } else {
            self.longer(alloc, c)
        }
    }

    // A quote begins or ends; a word goes on there.
    fn quoted(self, alloc: Global, quote: Option<char>) -> Result<SoFar, OutOfMemory>
        ensures words { IfOk result (λ s. s.words ≡ self.words) }
        ensures word { IfOk result (λ s. word_bytes s.word ≡ longer (word_bytes self.word) []) }
        ensures quote { IfOk result (λ s. s.quote ≡ quote) }
    {
        let SoFar { words, word, .. } = self;
        let word = Some(word.unwrap_or(String::new(alloc)));
        Ok(SoFar { words, word, quote })
    }

    // The word goes on.
    fn longer(self, alloc: Global, c: char) -> Result<SoFar, OutOfMemory>
        ensures words { IfOk result (λ s. s.words ≡ self.words) }
        ensures word { IfOk result (λ s. word_bytes s.word ≡ longer (word_bytes self.word) (encode_utf8 c)) }
        ensures quote { IfOk result (λ s. s.quote ≡ self.quote) }
    {
        let SoFar { words, word, quote } = self;
        let mut word = word.unwrap_or(String::new(alloc));
        word.push(c)?;
        Ok(SoFar {
            words,
            word: Some(word),
            quote,
        })
    }

    // The word ends, where one goes on.
    fn ended(self) -> Result<SoFar, OutOfMemory>
        ensures words { IfOk result (λ s. s.words ≡ self.words ++ all_of (word_bytes self.word, [])) }
        ensures word { IfOk result (λ s. s.word ≡ None) }
        ensures quote { IfOk result (λ s. s.quote ≡ self.quote) }
    {
        let SoFar {
            mut words,
            word,
            quote,
        } = self;
        if let Some(word) = word {
            words.push(Text::of(word))?;
        }
        Ok(SoFar {
            words,
            word: None,
            quote,
        })
    }

    // The words, if no more characters come.
    fn end(self) -> Result<Option<Items<Text>>, OutOfMemory>
        ensures { IfOk result (λ words. words ≡ goes_on self []) }
    {
        if self.quote.is_some() {
            return Ok(None);
        }
        let SoFar { words, .. } = self.ended()?;
        Ok(Some(words))
    }
}
