// The scripts of a federate file.
ghost use Rattle.std.specs.Prelude.{◌≡◌, ◌<◌, ◌++◌, true, nat_lt, codes, IfOk, IfSome, OnOk};
ghost use Rattle.serde_json.specs.View.{view, items_view};
ghost use Rattle.json_reading.specs.Keys.{pairs_of};
ghost use Rattle.json_reading.specs.Reading.{Read, Gives, needed_at, each_from};
ghost use Rattle.fed_script.specs.Script.{NamesTime, IsCourse};
ghost use Rattle.fed_script.specs.declared.word.Word.{Word as ScriptWord};
ghost use Rattle.fed_config.specs.Names.{known, step_words, StepNamesTime};
ghost use Rattle.fed_config.specs.Scripts.{head_of, publishing_of, sending_of, publish_of, publish_sum_of, send_of, echo_of, request_of, advance_of, iterate_of, fail_of, one, repeat_of, action_of, joined, words_in, body_of, script_words, not_allowed, initial_of, script_of};

use crate::names::{InputBelow, Names, NumberIn};
use crate::values::{DataReader, FailureReader, ValueReader};
use crate::verbs::{ModeWord, Verb, VerbWord, has_doubled_own};
use fed_script::{Action, Script, Word, Words};
use hel_lists::{Items, OutOfMemory, Text};
use hel_values::{Payload, Value};
use helics_time::MAX;
use json_reading::{
    AnyInteger, ConfigCause, ConfigRefusal, ListOf, Object, Reader, TextUpTo, TimeUpTo,
    WholeBetween, at_place, items, member, members, needed, optional,
};
use serde_json::Value as Json;
use std::alloc::Global;

const TIME: TimeUpTo = TimeUpTo { most: MAX };

// The most bytes of the destination of a message.
const DESTINATION: TextUpTo = TextUpTo { most: 1_024 };

// How often a body may be repeated.
const TIMES: WholeBetween = WholeBetween {
    least: 0,
    most: 1_000_000,
};

// The most actions of a script, with each repeat written out.
const MOST_ACTIONS: u64 = 1_000_000;

// How deeply repeats may be nested.
const DEEPEST: u32 = 8;

// A word, or words that are repeated.
enum Step {
    Word(Word),
    Repeat { times: u32, body: Words },
}

// The members of an action, and what it does.
fn head<'v>(alloc: Global, value: &'v Json) -> Result<(&'v Object, Verb), ConfigRefusal>
    ensures { Gives (λ h. (pairs_of h.0.now.entries, h.1)) result (head_of (view value.now)) }
{
    let object = members(alloc, value, &["do"])?;
    let verb = needed(alloc, object, "do", &VerbWord)?;
    if has_doubled_own(object, verb) {
        return Err(ConfigRefusal::of(alloc, ConfigCause::DoubledKey));
    }
    Ok((object, verb))
}

fn publishing(alloc: Global, names: &Names, object: &Object) -> Result<(u16, Value), ConfigRefusal>
    ensures { Gives (λ p. p) result (publishing_of (known names.now) (pairs_of object.now.entries)) }
{
    let publications = NumberIn {
        places: &names.publications,
    };
    let publication = needed(alloc, object, "to", &publications)?;
    let value = needed(alloc, object, "value", &ValueReader)?;
    Ok((publication, value))
}

fn publish(alloc: Global, names: &Names, object: &Object) -> Result<Word, ConfigRefusal>
    ensures read { Gives (λ w. w) result (publish_of (known names.now) (pairs_of object.now.entries)) }
    ensures times { IfOk result NamesTime }
{
    let (publication, value) = publishing(alloc, names, object)?;
    Ok(Word::Publish { publication, value })
}

fn publish_sum(alloc: Global, names: &Names, object: &Object) -> Result<Word, ConfigRefusal>
    ensures read { Gives (λ w. w) result (publish_sum_of (known names.now) (pairs_of object.now.entries)) }
    ensures times { IfOk result NamesTime }
{
    let publications = NumberIn {
        places: &names.publications,
    };
    let inputs = InputBelow {
        count: names.inputs,
    };
    let publication = needed(alloc, object, "to", &publications)?;
    let input = needed(alloc, object, "input", &inputs)?;
    let add = needed(alloc, object, "add", &AnyInteger)?;
    Ok(Word::PublishSum {
        publication,
        input,
        add,
    })
}

fn sending(
    alloc: Global,
    names: &Names,
    object: &Object,
) -> Result<(u16, Text, Payload), ConfigRefusal>
    ensures { Gives (λ s. s) result (sending_of (known names.now) (pairs_of object.now.entries)) }
{
    let endpoints = NumberIn {
        places: &names.endpoints,
    };
    let endpoint = needed(alloc, object, "from", &endpoints)?;
    let destination = needed(alloc, object, "to", &DESTINATION)?;
    let payload = needed(alloc, object, "data", &DataReader)?;
    Ok((endpoint, destination, payload))
}

fn send(alloc: Global, names: &Names, object: &Object) -> Result<Word, ConfigRefusal>
    ensures read { Gives (λ w. w) result (send_of (known names.now) (pairs_of object.now.entries)) }
    ensures times { IfOk result NamesTime }
{
    let (endpoint, destination, payload) = sending(alloc, names, object)?;
    Ok(Word::Send {
        endpoint,
        destination,
        payload,
    })
}

fn echo(alloc: Global, names: &Names, object: &Object) -> Result<Word, ConfigRefusal>
    ensures read { Gives (λ w. w) result (echo_of (known names.now) (pairs_of object.now.entries)) }
    ensures times { IfOk result NamesTime }
{
    let endpoints = NumberIn {
        places: &names.endpoints,
    };
    let endpoint = needed(alloc, object, "from", &endpoints)?;
    Ok(Word::Echo(endpoint))
}

#[tactic(auto, using(crate::proofs::Bounds::time_at_within))]
fn request(alloc: Global, object: &Object) -> Result<Word, ConfigRefusal>
    ensures read { Gives (λ w. w) result (request_of (pairs_of object.now.entries)) }
    ensures times { IfOk result NamesTime }
{
    let time = needed(alloc, object, "time", &TIME)?;
    Ok(Word::Request(time))
}

fn advance(alloc: Global, object: &Object) -> Result<Word, ConfigRefusal>
    ensures read { Gives (λ w. w) result (advance_of (pairs_of object.now.entries)) }
    ensures times { IfOk result NamesTime }
{
    let by = needed(alloc, object, "by", &TIME)?;
    Ok(Word::Advance(by))
}

#[tactic(auto, using(crate::proofs::Bounds::time_at_within))]
fn iterate(alloc: Global, object: &Object) -> Result<Word, ConfigRefusal>
    ensures read { Gives (λ w. w) result (iterate_of (pairs_of object.now.entries)) }
    ensures times { IfOk result NamesTime }
{
    let time = needed(alloc, object, "time", &TIME)?;
    let mode = needed(alloc, object, "mode", &ModeWord)?;
    Ok(Word::Iterate { time, mode })
}

fn fail(alloc: Global, object: &Object) -> Result<Word, ConfigRefusal>
    ensures read { Gives (λ w. w) result (fail_of (pairs_of object.now.entries)) }
    ensures times { IfOk result NamesTime }
{
    let text = needed(alloc, object, "text", &FailureReader)?;
    Ok(Word::Fail(text))
}

fn once(word: Result<Word, ConfigRefusal>) -> Result<Step, ConfigRefusal>
    requires { IfOk word NamesTime }
    ensures read { (read : Read ScriptWord) → Gives (λ w. w) word read → Gives step_words result (one read) }
    ensures times { IfOk result StepNamesTime }
{
    match word {
        Ok(word) => Ok(Step::Word(word)),
        Err(refusal) => Err(refusal),
    }
}

// What an action gives. Below it repeats may be nested so many levels deep.
#[cycle(script)]
#[tactic(auto, unfolding(crate::specs::Scripts::action_of))]
fn action(alloc: Global, names: &Names, value: &Json, left: u32) -> Result<Step, ConfigRefusal>
    ensures read { Gives step_words result (action_of (known names.now) (nat_lt 0 left) (body_of (known names.now) left) (view value.now)) }
    ensures times { IfOk result StepNamesTime }
{
    let (object, verb) = head(alloc, value)?;
    match verb {
        Verb::Publish => once(publish(alloc, names, object)),
        Verb::PublishSum => once(publish_sum(alloc, names, object)),
        Verb::Send => once(send(alloc, names, object)),
        Verb::Echo => once(echo(alloc, names, object)),
        Verb::Request => once(request(alloc, object)),
        Verb::Advance => once(advance(alloc, object)),
        Verb::Iterate => once(iterate(alloc, object)),
        Verb::Finish => Ok(Step::Word(Word::Finish)),
        Verb::Fail => once(fail(alloc, object)),
        Verb::Repeat => {
            if left == 0 {
                return Err(ConfigRefusal::of(alloc, ConfigCause::TooDeep));
            }
            repeat(alloc, names, object, left)
        }
    }
}

#[cycle(script)]
fn repeat(alloc: Global, names: &Names, object: &Object, left: u32) -> Result<Step, ConfigRefusal>
    requires { 0 < left }
    ensures read { Gives step_words result (repeat_of true (body_of (known names.now) left) (pairs_of object.now.entries)) }
    ensures times { IfOk result StepNamesTime }
{
    let times = needed(alloc, object, "times", &TIMES)?;
    let body = body(alloc, names, object, left)?;
    Ok(Step::Repeat {
        times: times as u32,
        body,
    })
}

// The body of a repeat.
#[cycle(script)]
#[tactic(auto, using(crate::proofs::Bodies::body_step))]
fn body(alloc: Global, names: &Names, object: &Object, left: u32) -> Result<Words, ConfigRefusal>
    requires { 0 < left }
    ensures { Gives (λ w. w) result (needed_at (codes "body") (body_of (known names.now) left) (pairs_of object.now.entries)) }
{
    match member(object, "body") {
        None => Err(ConfigRefusal::at(alloc, "body", ConfigCause::Missing)),
        Some((spelled, value)) => match words(alloc, names, value, left - 1) {
            Ok(words) => Ok(words),
            Err(refusal) => Err(refusal.under(alloc, spelled)),
        },
    }
}

// The words of a list of actions.
#[cycle(script)]
fn words(alloc: Global, names: &Names, value: &Json, left: u32) -> Result<Words, ConfigRefusal>
    ensures { Gives (λ w. w) result (words_in (action_of (known names.now) (nat_lt 0 left) (body_of (known names.now) left)) (view value.now)) }
{
    match items(value) {
        Ok(list) => each_action(alloc, names, list, left),
        Err(cause) => Err(ConfigRefusal::of(alloc, cause)),
    }
}

#[cycle(script)]
fn each_action(
    alloc: Global,
    names: &Names,
    list: &[Json],
    left: u32,
) -> Result<Words, ConfigRefusal>
    ensures { Gives (λ w. w) result (joined (each_from (action_of (known names.now) (nat_lt 0 left) (body_of (known names.now) left)) 0 (items_view list.now))) }
{
    let mut found = Words::new(alloc);
    for (place, value) in list.iter().enumerate() {
        let step = match action(alloc, names, value, left) {
            Ok(step) => step,
            Err(refusal) => return Err(at_place(alloc, place, refusal)),
        };
        match push(&mut found, step) {
            Ok(()) => {}
            Err(_) => return Err(ConfigRefusal::memory(alloc)),
        }
    }
    Ok(found)
}

fn push(words: &mut Words, step: Step) -> Result<(), OutOfMemory>
    requires { StepNamesTime step }
    ensures { OnOk result (words.new ≡ words.old ++ step_words step) }
{
    match step {
        Step::Word(word) => words.push(word),
        Step::Repeat { times, body } => words.push_repeat(times, body),
    }
}

// Reads a whole script.
#[derive(Clone, Copy)]
struct ScriptReader<'n> {
    names: &'n Names,
}

impl<'n> Reader for ScriptReader<'n> {
    ghost use Rattle.fed_config.specs.Names.{known};
    ghost use Rattle.fed_config.specs.Scripts.{script_words};

    type Output = Words;

    ghost reads = { λ reader. script_words (known reader.names.now) };

    #[tactic(auto, unfolding(crate::specs::Scripts::script_words), using(crate::proofs::Bodies::body_step))]
    fn read(&self, alloc: Global, value: &Json) -> Result<Words, ConfigRefusal> {
        let words = words(alloc, self.names, value, DEEPEST)?;
        if words.count() > MOST_ACTIONS {
            return Err(ConfigRefusal::of(alloc, ConfigCause::TooManySteps));
        }
        Ok(words)
    }
}

// Reads an action that comes before the federate enters.
#[derive(Clone, Copy)]
struct InitialReader<'n> {
    names: &'n Names,
}

impl<'n> Reader for InitialReader<'n> {
    ghost use Rattle.fed_config.specs.Names.{known};
    ghost use Rattle.fed_config.specs.Scripts.{initial_of};

    type Output = Action;

    ghost reads = { λ reader. initial_of (known reader.names.now) };

    #[tactic(auto, unfolding(crate::specs::Scripts::initial_of))]
    fn read(&self, alloc: Global, value: &Json) -> Result<Action, ConfigRefusal> {
        let (object, verb) = head(alloc, value)?;
        match verb {
            Verb::Publish => {
                let (publication, value) = publishing(alloc, self.names, object)?;
                Ok(Action::Publish { publication, value })
            }
            Verb::Send => {
                let (endpoint, destination, payload) = sending(alloc, self.names, object)?;
                Ok(Action::Send {
                    endpoint,
                    destination,
                    payload,
                })
            }
            _ => not_allowed(alloc, object),
        }
    }
}

fn not_allowed(alloc: Global, object: &Object) -> Result<Action, ConfigRefusal>
    ensures { Gives (λ a. a) result (not_allowed (pairs_of object.now.entries)) }
{
    match member(object, "do") {
        Some((spelled, _)) => Err(ConfigRefusal::at(alloc, spelled, ConfigCause::UnknownWord)),
        None => Err(ConfigRefusal::at(alloc, "do", ConfigCause::Missing)),
    }
}

/// The script of a file with these members, where it has one.
#[tactic(auto, unfolding(crate::specs::Scripts::script_of), using(crate::proofs::Initials::initial_within))]
pub fn script(
    alloc: Global,
    names: &Names,
    object: &Object,
) -> Result<Option<Script>, ConfigRefusal>
    ensures read { Gives (λ s. s) result (script_of (known names.now) (pairs_of object.now.entries)) }
    ensures rules { IfOk result (λ s. IfSome s IsCourse) }
{
    let list = ListOf {
        reader: InitialReader { names },
    };
    let initial = optional(alloc, object, "initial", &list)?;
    let words = optional(alloc, object, "script", &ScriptReader { names })?;
    match words {
        Some(words) => Ok(Some(Script::of(initial.unwrap_or(Items::new(alloc)), words))),
        None => Ok(None),
    }
}
