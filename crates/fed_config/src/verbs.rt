// What actions do, and which keys say how.
ghost use Rattle.std.specs.Prelude.{◌≡◌};
ghost use Rattle.json_reading.specs.Keys.{is_doubled, pairs_of};
ghost use Rattle.fed_config.specs.Words.{named_in};
ghost use Rattle.fed_config.specs.Scripts.{modes, verbs, keys_of};

use iteration_rules::Mode;
use json_reading::{ConfigCause, ConfigRefusal, Object, Reader, has_doubled, text};
use serde_json::Value;
use std::alloc::Global;

/// What an action does.
#[derive(Clone, Copy, Debug, PartialEq, Eq)]
pub enum Verb {
    Publish,
    PublishSum,
    Send,
    Echo,
    Request,
    Advance,
    Iterate,
    Finish,
    Fail,
    Repeat,
}

fn verb_named(word: &str) -> Option<Verb>
    ensures { result ≡ named_in verbs word.now }
{
    match word {
        "publish" => Some(Verb::Publish),
        "publish_sum" => Some(Verb::PublishSum),
        "send" => Some(Verb::Send),
        "echo" => Some(Verb::Echo),
        "request" => Some(Verb::Request),
        "advance" => Some(Verb::Advance),
        "iterate" => Some(Verb::Iterate),
        "finish" => Some(Verb::Finish),
        "fail" => Some(Verb::Fail),
        "repeat" => Some(Verb::Repeat),
        _ => None,
    }
}

/// Whether two members stand for one key of this verb.
pub fn has_doubled_own(object: &Object, verb: Verb) -> bool
    ensures { result ≡ is_doubled (keys_of verb) (pairs_of object.now.entries) }
{
    match verb {
        Verb::Publish => has_doubled(object, &["to", "value"]),
        Verb::PublishSum => has_doubled(object, &["to", "input", "add"]),
        Verb::Send => has_doubled(object, &["from", "to", "data"]),
        Verb::Echo => has_doubled(object, &["from"]),
        Verb::Request => has_doubled(object, &["time"]),
        Verb::Advance => has_doubled(object, &["by"]),
        Verb::Iterate => has_doubled(object, &["time", "mode"]),
        Verb::Finish => false,
        Verb::Fail => has_doubled(object, &["text"]),
        Verb::Repeat => has_doubled(object, &["times", "body"]),
    }
}

/// Reads what an action does.
#[derive(Clone, Copy, Debug, PartialEq, Eq)]
pub struct VerbWord;

impl Reader for VerbWord {
    ghost use Rattle.fed_config.specs.Words.{word_in};
    ghost use Rattle.fed_config.specs.Scripts.{verbs};

    type Output = Verb;

    ghost reads = { λ reader. word_in verbs };

    fn read(&self, alloc: Global, value: &Value) -> Result<Verb, ConfigRefusal> {
        match text(value) {
            Ok(word) => match verb_named(word) {
                Some(verb) => Ok(verb),
                None => Err(ConfigRefusal::of(alloc, ConfigCause::UnknownWord)),
            },
            Err(cause) => Err(ConfigRefusal::of(alloc, cause)),
        }
    }
}

fn mode_named(word: &str) -> Option<Mode>
    ensures { result ≡ named_in modes word.now }
{
    match word {
        "force" => Some(Mode::Force),
        "if_needed" => Some(Mode::IfNeeded),
        _ => None,
    }
}

/// Reads the mode of an iteration.
#[derive(Clone, Copy, Debug, PartialEq, Eq)]
pub struct ModeWord;

impl Reader for ModeWord {
    ghost use Rattle.fed_config.specs.Words.{word_in};
    ghost use Rattle.fed_config.specs.Scripts.{modes};

    type Output = Mode;

    ghost reads = { λ reader. word_in modes };

    fn read(&self, alloc: Global, value: &Value) -> Result<Mode, ConfigRefusal> {
        match text(value) {
            Ok(word) => match mode_named(word) {
                Some(mode) => Ok(mode),
                None => Err(ConfigRefusal::of(alloc, ConfigCause::UnknownWord)),
            },
            Err(cause) => Err(ConfigRefusal::of(alloc, cause)),
        }
    }
}
