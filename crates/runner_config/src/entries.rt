//! The entries of a runner file (docs/FORMATS.md, Runner file).
ghost use Rattle.std.specs.Prelude.{◌≡◌, ◌||◌, IfOk, false, option_map, unwrap_or};
ghost use Rattle.std.specs.Option.{option_copied};
ghost use Rattle.serde_json.specs.View.{view, items_view};
ghost use Rattle.json_reading.specs.Keys.{pairs_of};
ghost use Rattle.json_reading.specs.Reading.{Gives as GivesRead};
ghost use Rattle.runner_config.specs.Told.{Gives};
ghost use Rattle.runner_config.specs.Counts.{is_broker};
ghost use Rattle.runner_config.specs.Fields.{fields_of};
ghost use Rattle.runner_config.specs.Entries.{sole_at, fields_at, words_in, is_local, config_in, config_of, entry_of, is_broker_entry, has_federate, single_entry, entries_from, AreInOrder};

use crate::counts::is_broker;
use crate::refusal::RunnerRefusal;
use crate::splitting::split;
use hel_lists::{Copied, Items, OutOfMemory, Text};
use json_reading::{
    AnyText, ConfigCause, ConfigRefusal, Object, as_object, has_doubled, member, members, optional,
};
use serde_json::Value;
use std::alloc::Global;

/// What stands at the keys of an entry.
#[derive(Drop)]
pub struct EntryFields {
    pub name: Option<Text>,
    pub exec: Option<Text>,
    pub directory: Option<Text>,
    pub host: Option<Text>,
    pub core: Option<Text>,
    pub config: Option<Text>,
}

/// An entry, a broker's too, with its place in the file's list.
#[derive(Drop)]
pub struct Listed {
    pub place: u64,
    pub name: Text,
    pub words: Items<Text>,
    pub directory: Text,
    pub core: Option<Text>,
    pub config: Option<Text>,
}

/// What stands at the only key that stands for this one.
pub fn sole<'v>(object: &'v Object, key: &str) -> Option<&'v Value>
    ensures { option_map (λ v. view v.now) result ≡ sole_at key.now (pairs_of object.now.entries) }
{
    if has_doubled(object, &[key]) {
        return None;
    }
    match member(object, key) {
        Some((_, value)) => Some(value),
        None => None,
    }
}

#[tactic(auto, unfolding(crate::specs::Fields::fields_of))]
fn fields(alloc: Global, value: &Value) -> Result<EntryFields, ConfigRefusal>
    ensures { GivesRead (λ f. f) result (fields_of (view value.now)) }
{
    let keys = ["name", "exec", "directory", "host", "core", "config"];
    let object = members(alloc, value, &keys)?;
    let name = optional(alloc, object, "name", &AnyText)?;
    let exec = optional(alloc, object, "exec", &AnyText)?;
    let directory = optional(alloc, object, "directory", &AnyText)?;
    let host = optional(alloc, object, "host", &AnyText)?;
    let core = optional(alloc, object, "core", &AnyText)?;
    let config = optional(alloc, object, "config", &AnyText)?;
    Ok(EntryFields {
        name,
        exec,
        directory,
        host,
        core,
        config,
    })
}

fn fields_at(alloc: Global, place: u64, value: &Value) -> Result<EntryFields, RunnerRefusal>
    ensures { Gives (λ f. f) result (fields_at place (fields_of (view value.now))) }
{
    match fields(alloc, value) {
        Ok(fields) => Ok(fields),
        Err(refusal) if refusal.cause == ConfigCause::OutOfMemory => {
            Err(RunnerRefusal::OutOfMemory)
        }
        Err(_) => Err(RunnerRefusal::BadEntry(place)),
    }
}

// The words of `exec`, at least one.
fn words_in(alloc: Global, place: u64, exec: Option<Text>) -> Result<Items<Text>, RunnerRefusal>
    ensures { Gives (λ w. w) result (words_in place exec) }
{
    let Some(exec) = exec else {
        return Err(RunnerRefusal::MissingExec(place));
    };
    match split(alloc, exec.as_str())? {
        None => Err(RunnerRefusal::UnclosedQuote(place)),
        Some(words) if words.is_empty() => Err(RunnerRefusal::MissingExec(place)),
        Some(words) => Ok(words),
    }
}

fn is_local(host: &Option<Text>) -> bool
    ensures { result ≡ is_local host.now }
{
    match host {
        Some(host) => host.as_str() == "localhost" || host.as_str() == "127.0.0.1",
        None => true,
    }
}

// The path that words of this program name.
fn config_in(words: &[Text]) -> Option<&Text>
    ensures { option_copied result ≡ config_in words.now }
{
    match words {
        [program, word, path, ..] if program.as_str() == "$self" && word.as_str() == "fed" => {
            Some(path)
        }
        _ => None,
    }
}

fn config_of(
    alloc: Global,
    config: Option<Text>,
    words: &[Text],
) -> Result<Option<Text>, OutOfMemory>
    ensures { IfOk result (λ path. path ≡ config_of config words.now) }
{
    if config.is_some() {
        return Ok(config);
    }
    match config_in(words) {
        Some(path) => Ok(Some(path.copy(alloc)?)),
        None => Ok(None),
    }
}

fn text_or(alloc: Global, text: Option<Text>, other: &str) -> Result<Text, OutOfMemory>
    ensures { IfOk result (λ t. t ≡ unwrap_or text other.now) }
{
    match text {
        Some(text) => Ok(text),
        None => Text::from_str(alloc, other),
    }
}

#[tactic(auto, unfolding(crate::specs::Entries::entry_of))]
fn entry(alloc: Global, place: u64, value: &Value) -> Result<Listed, RunnerRefusal>
    ensures place { IfOk result (λ e. e.place ≡ place) }
    ensures told { Gives (λ e. e) result (entry_of place (view value.now)) }
{
    let EntryFields {
        name,
        exec,
        directory,
        host,
        core,
        config,
    } = fields_at(alloc, place, value)?;
    let Some(name) = name else {
        return Err(RunnerRefusal::MissingName(place));
    };
    let words = words_in(alloc, place, exec)?;
    if !is_local(&host) {
        return Err(RunnerRefusal::HostNotLocal(place));
    }
    let directory = text_or(alloc, directory, ".")?;
    let config = config_of(alloc, config, words.as_slice())?;
    Ok(Listed {
        place,
        name,
        words,
        directory,
        core,
        config,
    })
}

// Whether an element of the list is an entry of a broker.
fn is_broker_entry(alloc: Global, value: &Value) -> Result<bool, OutOfMemory>
    ensures { IfOk result (λ is. is ≡ is_broker_entry (view value.now)) }
{
    let Some(object) = as_object(value) else {
        return Ok(false);
    };
    let Some(exec) = sole(object, "exec") else {
        return Ok(false);
    };
    let Some(exec) = exec.as_str() else {
        return Ok(false);
    };
    match split(alloc, exec)? {
        Some(words) => Ok(is_broker(words.as_slice())),
        None => Ok(false),
    }
}

/// Whether the list has an entry besides brokers.
pub fn has_federate(alloc: Global, list: &[Value]) -> Result<bool, OutOfMemory>
    ensures { IfOk result (λ has. has ≡ has_federate (items_view list.now)) }
{
    for value in list {
        if !is_broker_entry(alloc, value)? {
            return Ok(true);
        }
    }
    Ok(false)
}

// An entry that isn't the second broker.
#[tactic(auto, unfolding(crate::specs::Entries::single_entry))]
fn single_entry(
    alloc: Global,
    met: bool,
    place: u64,
    value: &Value,
) -> Result<Listed, RunnerRefusal>
    ensures place { IfOk result (λ e. e.place ≡ place) }
    ensures told { Gives (λ e. e) result (single_entry met place (view value.now)) }
{
    let entry = entry(alloc, place, value)?;
    if met && is_broker(entry.words.as_slice()) {
        return Err(RunnerRefusal::TwoBrokers(place));
    }
    Ok(entry)
}

fn has_met(met: bool, entry: &Listed) -> bool
    ensures { result ≡ (met || is_broker entry.now.words) }
{
    met || is_broker(entry.words.as_slice())
}

/// All entries in order, of which one may be a broker's.
pub fn entries(alloc: Global, list: &[Value]) -> Result<Items<Listed>, RunnerRefusal>
    ensures told { Gives (λ all. all) result (entries_from false 0 (items_view list.now)) }
    ensures places { IfOk result AreInOrder }
{
    let mut found = Items::new(alloc);
    let mut met = false;
    for (place, value) in list.iter().enumerate() {
        let entry = match single_entry(alloc, met, place as u64, value) {
            Ok(entry) => entry,
            Err(refusal) => return Err(refusal),
        };
        met = has_met(met, &entry);
        found.push(entry)?;
    }
    Ok(found)
}
