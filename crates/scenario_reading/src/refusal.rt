//! Why what was read isn't run, and how that is told (docs/FORMATS.md, Refusals).
ghost use Rattle.std.specs.Prelude.{◌≡◌, IfOk, string_bytes};
ghost use Rattle.std.specs.List.{list_all};
ghost use Rattle.json.specs.Print.{quoted};
ghost use Rattle.scenario_reading.specs.Refusals.{tree_word, runner_name, place_in, runner_detail, time_word, cause_name, registry_name, is_shown, shown, beside, at_place, two_shown, registry_detail, name_of, detail_of, text_of};

use hel_lists::{OutOfMemory, Text};
use helics_time::TimeText;
use interface_names::RegistryRefusal;
use json_reading::{ConfigCause, ConfigRefusal};
use runner_config::{RunnerRefusal, TreeCause};
use serde_json::Value;
use std::alloc::Global;

/// The first refusal in the order of reading. A path is that of a file, and every other text a name
/// in the federation.
#[derive(Debug, Drop)]
pub enum Refusal {
    /// A file of more than 16,777,216 bytes.
    FileTooLarge(Text),
    /// What the runner file says, or doesn't.
    Runner {
        path: Text,
        refusal: RunnerRefusal,
    },
    /// The entry at this place of the runner file has no federate file.
    NoConfig {
        path: Text,
        place: u64,
    },
    /// What a federate file says, at a place in it.
    Config {
        path: Text,
        refusal: ConfigRefusal,
    },
    /// The tree of the runner file has a broker or more than one core, which no run takes yet.
    NotBuilt(Text),
    /// A federate can't join those before it.
    Federate {
        name: Text,
        refusal: RegistryRefusal,
    },
    /// There is no federate to make a plan of.
    NoFederates,
    /// A federate requires a publication that there isn't.
    MissingRequired {
        federate: Text,
        target: Text,
    },
    /// An input of the federate takes values of another kind than its publication's.
    KindMismatch {
        federate: Text,
        publication: Text,
    },
    /// A filter refers to an endpoint that there isn't.
    FilterTarget(Text),
    /// More than 8 filters stand on one side of the endpoint.
    ChainTooLong(Text),
    /// The federate is to be played, and its file has no script.
    NoScript(Text),
}

impl Refusal {
    /// The name and the detail, as they are printed: `MissingRequired: B Z/q`.
    pub fn text(&self, alloc: Global) -> Result<String, OutOfMemory>
        ensures { IfOk result (λ text. string_bytes text ≡ text_of self.now) }
    {
        let name = self.name();
        let detail = self.detail(alloc)?;
        Ok(format!(in alloc; "{name}: {detail}")?)
    }

    /// The name.
    pub fn name(&self) -> &'static str
        ensures { result.now ≡ name_of self.now }
    {
        match self {
            Refusal::FileTooLarge(_) => "FileTooLarge",
            Refusal::Runner { refusal, .. } => runner_name(refusal),
            Refusal::NoConfig { .. } => "NoConfig",
            Refusal::Config { refusal, .. } => cause_name(refusal.cause),
            Refusal::NotBuilt(_) => "NotBuilt",
            Refusal::Federate { refusal, .. } => registry_name(refusal),
            Refusal::NoFederates => "NoFederates",
            Refusal::MissingRequired { .. } => "MissingRequired",
            Refusal::KindMismatch { .. } => "KindMismatch",
            Refusal::FilterTarget(_) => "FilterTarget",
            Refusal::ChainTooLong(_) => "ChainTooLong",
            Refusal::NoScript(_) => "NoScript",
        }
    }

    // What stands behind the name.
    fn detail(&self, alloc: Global) -> Result<String, OutOfMemory>
        ensures { IfOk result (λ detail. string_bytes detail ≡ detail_of self.now) }
    {
        match self {
            Refusal::FileTooLarge(path) => copied(alloc, path.as_str()),
            Refusal::Runner { path, refusal } => runner_detail(alloc, path.as_str(), refusal),
            Refusal::NoConfig { path, place } => at_place(alloc, path.as_str(), *place),
            Refusal::Config { path, refusal } => beside(
                alloc,
                path.as_str(),
                refusal.path.as_str(),
            ),
            Refusal::NotBuilt(path) => copied(alloc, path.as_str()),
            Refusal::Federate { name, refusal } => registry_detail(alloc, name.as_str(), refusal),
            Refusal::NoFederates => Ok(String::new(alloc)),
            Refusal::MissingRequired { federate, target } => {
                two_shown(alloc, federate.as_str(), target.as_str())
            }
            Refusal::KindMismatch {
                federate,
                publication,
            } => two_shown(alloc, federate.as_str(), publication.as_str()),
            Refusal::FilterTarget(name) => shown(alloc, name.as_str()),
            Refusal::ChainTooLong(name) => shown(alloc, name.as_str()),
            Refusal::NoScript(name) => shown(alloc, name.as_str()),
        }
    }
}

fn copied(alloc: Global, text: &str) -> Result<String, OutOfMemory>
    ensures { IfOk result (λ copy. string_bytes copy ≡ text.now) }
{
    Ok(String::from_str(alloc, text)?)
}

// Two texts with a space between them.
fn beside(alloc: Global, first: &str, second: &str) -> Result<String, OutOfMemory>
    ensures { IfOk result (λ text. string_bytes text ≡ beside first.now second.now) }
{
    Ok(format!(in alloc; "{first} {second}")?)
}

// A path, and the place of an entry in the file.
fn at_place(alloc: Global, path: &str, place: u64) -> Result<String, OutOfMemory>
    ensures { IfOk result (λ text. string_bytes text ≡ at_place path.now place) }
{
    Ok(format!(in alloc; "{path} {place}")?)
}

// ---- what the runner file says

fn tree_word(cause: TreeCause) -> &'static str
    ensures { result.now ≡ tree_word cause }
{
    match cause {
        TreeCause::Shape => "Shape",
        TreeCause::NameTwice => "NameTwice",
        TreeCause::UnknownParent => "UnknownParent",
        TreeCause::UnknownCore => "UnknownCore",
        TreeCause::TooManyNodes => "TooManyNodes",
    }
}

fn runner_name(refusal: &RunnerRefusal) -> &'static str
    ensures { result.now ≡ runner_name refusal.now }
{
    match *refusal {
        RunnerRefusal::NotJson => "NotJson",
        RunnerRefusal::NotAnObject => "NotAnObject",
        RunnerRefusal::NoFederates => "NoFederates",
        RunnerRefusal::BadEntry(_) => "BadEntry",
        RunnerRefusal::MissingName(_) => "MissingName",
        RunnerRefusal::MissingExec(_) => "MissingExec",
        RunnerRefusal::UnclosedQuote(_) => "UnclosedQuote",
        RunnerRefusal::HostNotLocal(_) => "HostNotLocal",
        RunnerRefusal::TwoBrokers(_) => "TwoBrokers",
        RunnerRefusal::BadTree(_) => "BadTree",
        RunnerRefusal::BrokerCount(_) => "BrokerCount",
        RunnerRefusal::OutOfMemory => "OutOfMemory",
    }
}

// The place of the entry that is refused, where it is one.
fn place_in(refusal: &RunnerRefusal) -> Option<u64>
    ensures { result ≡ place_in refusal.now }
{
    match *refusal {
        RunnerRefusal::BadEntry(place) => Some(place),
        RunnerRefusal::MissingName(place) => Some(place),
        RunnerRefusal::MissingExec(place) => Some(place),
        RunnerRefusal::UnclosedQuote(place) => Some(place),
        RunnerRefusal::HostNotLocal(place) => Some(place),
        RunnerRefusal::TwoBrokers(place) => Some(place),
        RunnerRefusal::BrokerCount(place) => Some(place),
        _ => None,
    }
}

fn runner_detail(alloc: Global, path: &str, refusal: &RunnerRefusal) -> Result<String, OutOfMemory>
    ensures { IfOk result (λ detail. string_bytes detail ≡ runner_detail path.now refusal.now) }
{
    if let RunnerRefusal::BadTree(cause) = *refusal {
        return beside(alloc, path, tree_word(cause));
    }
    match place_in(refusal) {
        Some(place) => at_place(alloc, path, place),
        None => copied(alloc, path),
    }
}

// ---- what a federate file says

fn time_word(refusal: TimeText) -> &'static str
    ensures { result.now ≡ time_word refusal }
{
    match refusal {
        TimeText::NotANumber => "NotANumber",
        TimeText::UnknownUnit => "UnknownUnit",
        TimeText::NotWhole => "NotWhole",
        TimeText::TooLarge => "TooLarge",
    }
}

fn cause_name(cause: ConfigCause) -> &'static str
    ensures { result.now ≡ cause_name cause }
{
    match cause {
        ConfigCause::NotJson => "NotJson",
        ConfigCause::NotAnObject => "NotAnObject",
        ConfigCause::NotAList => "NotAList",
        ConfigCause::NotAText => "NotAText",
        ConfigCause::NotABool => "NotABool",
        ConfigCause::NotATime => "NotATime",
        ConfigCause::Time(refusal) => time_word(refusal),
        ConfigCause::NotANumber => "NotANumber",
        ConfigCause::OutOfRange => "OutOfRange",
        ConfigCause::Missing => "Missing",
        ConfigCause::UnknownWord => "UnknownWord",
        ConfigCause::DoubledKey => "DoubledKey",
        ConfigCause::BadHex => "BadHex",
        ConfigCause::TooManySteps => "TooManySteps",
        ConfigCause::TooDeep => "TooDeep",
        ConfigCause::OutOfMemory => "OutOfMemory",
    }
}

// ---- what a federation says

fn registry_name(refusal: &RegistryRefusal) -> &'static str
    ensures { result.now ≡ registry_name refusal.now }
{
    match refusal {
        RegistryRefusal::TooManyFederates => "TooManyFederates",
        RegistryRefusal::BadName => "BadName",
        RegistryRefusal::DuplicateFederate => "DuplicateFederate",
        RegistryRefusal::TooManyInterfaces => "TooManyInterfaces",
        RegistryRefusal::DuplicateName(_) => "DuplicateName",
        RegistryRefusal::OutOfMemory => "OutOfMemory",
    }
}

fn registry_detail(
    alloc: Global,
    federate: &str,
    refusal: &RegistryRefusal,
) -> Result<String, OutOfMemory>
    ensures { IfOk result (λ detail. string_bytes detail ≡ registry_detail federate.now refusal.now) }
{
    match refusal {
        RegistryRefusal::DuplicateName(name) => shown(alloc, name.as_str()),
        _ => shown(alloc, federate),
    }
}

// ---- names in details

fn is_plain(name: &[u8]) -> bool
    ensures { result ≡ list_all is_shown name.now }
{
    name.iter().all(|byte| *byte >= 0x21 && *byte <= 0x7e)
}

fn quoted(alloc: Global, name: &str) -> Result<String, OutOfMemory>
    ensures { IfOk result (λ text. string_bytes text ≡ quoted name.now) }
{
    Ok(Value::try_from_str(alloc, name)?.to_string(alloc)?)
}

// A name as it is told: plainly, or as JSON text where it holds another character than those from
// U+0021 to U+007E.
fn shown(alloc: Global, name: &str) -> Result<String, OutOfMemory>
    ensures { IfOk result (λ text. string_bytes text ≡ shown name.now) }
{
    if is_plain(name.as_bytes()) {
        copied(alloc, name)
    } else {
        quoted(alloc, name)
    }
}

fn two_shown(alloc: Global, first: &str, second: &str) -> Result<String, OutOfMemory>
    ensures { IfOk result (λ text. string_bytes text ≡ two_shown first.now second.now) }
{
    let first = shown(alloc, first)?;
    let second = shown(alloc, second)?;
    beside(alloc, first.as_str(), second.as_str())
}
