//! The words of the command line: what they ask for.
#![tactic(auto)]

ghost use Rattle.std.specs.Prelude.{◌≡◌, IfOk, IfErr, List, [], map, string_bytes};
ghost use Rattle.clap.specs.Words.{kind_of, found_of, rows_of};
ghost use Rattle.command_words.specs.Words.{accepts, file_rows, file_in, verb_of, Asks};

use clap::error::ErrorKind;
use clap::{Arg, ArgMatches, Command, Error};
use hel_lists::{OutOfMemory, Text};
use std::alloc::Global;

/// What the first word asks for.
#[derive(Clone, Copy, Debug, PartialEq, Eq)]
pub enum Verb {
    /// `check FILE`: everything is read, and the plan printed.
    Check,
    /// `sim FILE`: the federation is run, and its logs printed.
    Sim,
}

/// What words ask for.
#[derive(Debug, Drop)]
pub struct Asked {
    pub verb: Verb,
    /// FILE, the path of the runner file.
    pub file: Text,
}

/// Why words ask for nothing.
#[derive(Clone, Copy, Debug, PartialEq, Eq)]
pub enum WordsRefusal {
    BadWords,
    OutOfMemory,
}

impl From<OutOfMemory> for WordsRefusal {
    ghost use Rattle.std.specs.Prelude.{◌≡◌};
    ghost use Rattle.command_words.specs.declared.WordsRefusal.{WordsRefusal};

    ghost from_gives = { λ _ e. e ≡ WordsRefusal.OutOfMemory };

    fn from(_: OutOfMemory) -> Self {
        WordsRefusal::OutOfMemory
    }
}

/// What these words ask for, which leave out the program's own name: `check FILE` or `sim FILE`. The
/// words behind the first are read by a simple command of clap without help and version flags
/// (docs/FORMATS.md, Words); they are refused as bad exactly where the first word is another or the
/// command refuses the rest.
pub fn read_words(alloc: Global, words: &[String]) -> Result<Asked, WordsRefusal>
    ensures { Asks (map string_bytes words.now) result }
{
    let [first, rest @ ..] = words else {
        return Err(WordsRefusal::BadWords);
    };
    let Some(verb) = verb_of(first.as_str()) else {
        return Err(WordsRefusal::BadWords);
    };
    let file = file_of(alloc, rest)?;
    Ok(Asked { verb, file })
}

fn verb_of(word: &str) -> Option<Verb>
    ensures { result ≡ verb_of word.now }
{
    match word {
        "check" => Some(Verb::Check),
        "sim" => Some(Verb::Sim),
        _ => None,
    }
}

// FILE, the one word that the command takes.
fn file_of(alloc: Global, words: &[String]) -> Result<Text, WordsRefusal>
    ensures ok { IfOk result (λ file. accepts (map string_bytes words.now) × (file ≡ file_in (file_rows (map string_bytes words.now)))) }
    ensures bad { result ≡ Err WordsRefusal.BadWords → ¬ accepts (map string_bytes words.now) }
{
    let matches = match file_matches(alloc, words) {
        Ok(matches) => matches,
        Err(e) => {
            return Err(match e.kind() {
                ErrorKind::OutOfMemory => WordsRefusal::OutOfMemory,
                _ => WordsRefusal::BadWords,
            });
        }
    };
    Ok(Text::from_str(alloc, file_given(&matches))?)
}

// What clap's command of one FILE makes of these words.
fn file_matches<'a>(alloc: Global, words: &'a [String]) -> Result<ArgMatches<'a>, Error>
    ensures ok { IfOk result (λ m. accepts (map string_bytes words.entry.now)
        × (rows_of (found_of m) ≡ file_rows (map string_bytes words.entry.now))) }
    ensures err { IfErr result (λ e. ¬ (kind_of e ≡ ErrorKind.OutOfMemory)
        → ¬ accepts (map string_bytes words.entry.now)) }
{
    let file = Arg::new(alloc, "file").required(true);
    let bare = Command::new(alloc, "file")
        .no_binary_name(true)
        .disable_help_flag(true);
    let whole = bare.arg(file)?;
    whole.try_get_matches_from(words)
}

fn file_given<'a>(matches: &ArgMatches<'a>) -> &'a str
    ensures { result.now ≡ file_in (rows_of (found_of matches.now)) }
{
    matches.get_str("file").unwrap_or("")
}

#[cfg(test)]
mod tests;
