// A federate file.
ghost use Rattle.std.specs.Prelude.{◌≡◌, ◌≢◌, ◌⊎◌, ◌≤◌, ◌^◌, ◌++◌, ◌*◌, IfOk, IfSome, codes, length};
ghost use Rattle.serde_json.specs.View.{view};
ghost use Rattle.helics_time.specs.Time.{longest_span};
ghost use Rattle.fed_script.specs.Script.{IsCourse};
ghost use Rattle.json_reading.specs.Keys.{pairs_of};
ghost use Rattle.json_reading.specs.Reading.{Gives, no_memory, refused};
ghost use Rattle.fed_config.specs.Names.{HasFew};
ghost use Rattle.fed_config.specs.Federate.{most_items, setting_at, iterations_at, settings_of, inputs_of, list_at, record_of, federate_of, whole_path, config_of, Answers};

use crate::filters::FilterReader;
use crate::interfaces::{EndpointReader, InputReader, PublicationReader, SubscriptionReader};
use crate::names::Names;
use crate::scripts::script;
use fed_script::Script;
use hel_lists::{Items, OutOfMemory, Text};
use helics_time::Settings;
use interface_names::{FederateRecord, InputRecord};
use json_reading::{
    ConfigCause, ConfigRefusal, ListUpTo, Object, Reader, TextUpTo, TimeUpTo, TrueOrFalse,
    WholeBetween, members, optional, parse,
};
use serde_json::Value;
use std::alloc::Global;

/// What a federate file says: what the federate brings, whether the file names it, and its script,
/// where there is one. A federate that its file doesn't name has the empty name.
#[derive(Debug, Drop)]
pub struct FederateConfig {
    pub federate: FederateRecord,
    pub named: bool,
    pub script: Option<Script>,
}

// The most bytes of a federate's name.
const NAME: TextUpTo = TextUpTo { most: 1_024 };

const SETTING: TimeUpTo = TimeUpTo { most: 1 << 56 };

const ITERATIONS: WholeBetween = WholeBetween {
    least: 1,
    most: 10_000,
};

// The most interfaces of one list.
const MOST_INTERFACES: usize = 32_768;

/// What the bytes of a federate file say, or the first refusal (docs/FORMATS.md, Federate file). For
/// want of memory the path is empty.
#[tactic(auto, unfolding(crate::specs::Federate::config_of))]
pub fn read_federate(alloc: Global, bytes: &[u8]) -> Result<FederateConfig, ConfigRefusal>
    ensures answer { Answers result (config_of bytes.now) }
    ensures rules { IfOk result (λ c. IfSome c.script IsCourse) }
{
    let read = match parse(alloc, bytes) {
        Ok(Some(value)) => federate(alloc, &value),
        Ok(None) => Err(ConfigRefusal::of(alloc, ConfigCause::NotJson)),
        Err(OutOfMemory) => Err(ConfigRefusal::memory(alloc)),
    };
    match read {
        Ok(config) => Ok(config),
        Err(refusal) => Err(in_file(alloc, refusal)),
    }
}

// The refusal with its place in the file: the place of the whole file is `/`.
fn in_file(alloc: Global, refusal: ConfigRefusal) -> ConfigRefusal
    ensures { (result ≡ no_memory) ⊎ ((refusal.cause ≢ ConfigCause.OutOfMemory) × (result ≡ refused (whole_path refusal.path) refusal.cause)) }
{
    let ConfigRefusal { path, cause } = refusal;
    if cause == ConfigCause::OutOfMemory {
        return ConfigRefusal::memory(alloc);
    }
    if !path.is_empty() {
        return ConfigRefusal { path, cause };
    }
    match Text::from_str(alloc, "/") {
        Ok(path) => ConfigRefusal { path, cause },
        Err(OutOfMemory) => ConfigRefusal::memory(alloc),
    }
}

#[tactic(auto, unfolding(crate::specs::Federate::federate_of))]
fn federate(alloc: Global, value: &Value) -> Result<FederateConfig, ConfigRefusal>
    ensures read { Gives (λ c. c) result (federate_of (view value.now)) }
    ensures rules { IfOk result (λ c. IfSome c.script IsCourse) }
{
    let keys = [
        "name",
        "period",
        "offset",
        "timedelta",
        "inputdelay",
        "outputdelay",
        "uninterruptible",
        "waitforcurrenttimeupdate",
        "maxiterations",
        "publications",
        "subscriptions",
        "inputs",
        "endpoints",
        "filters",
        "initial",
        "script",
    ];
    let object = members(alloc, value, &keys)?;
    let name = optional(alloc, object, "name", &NAME)?;
    let named = name.is_some();
    let federate = record(alloc, name.unwrap_or(Text::new(alloc)), object)?;
    let Ok(names) = Names::of(alloc, &federate) else {
        return Err(ConfigRefusal::memory(alloc));
    };
    let script = script(alloc, &names, object)?;
    Ok(FederateConfig {
        federate,
        named,
        script,
    })
}

#[tactic(auto, unfolding(crate::specs::Federate::record_of))]
fn record(alloc: Global, name: Text, object: &Object) -> Result<FederateRecord, ConfigRefusal>
    ensures read { Gives (λ f. f) result (record_of name (pairs_of object.now.entries)) }
    ensures few { IfOk result HasFew }
{
    let settings = settings(alloc, object)?;
    let publications = list(alloc, object, "publications", PublicationReader)?;
    let inputs = inputs(alloc, object)?;
    let endpoints = list(alloc, object, "endpoints", EndpointReader)?;
    let filters = list(alloc, object, "filters", FilterReader)?;
    Ok(FederateRecord {
        name,
        settings,
        publications,
        inputs,
        endpoints,
        filters,
    })
}

#[tactic(auto, using(crate::proofs::Bounds::list_within))]
fn list<R: Reader + Drop>(
    alloc: Global,
    object: &Object,
    key: &str,
    reader: R,
) -> Result<Items<R::Output>, ConfigRefusal>
where
    R::Output: Drop,
    ensures read { Gives (λ xs. xs) result (list_at key.now (R.reads reader) (pairs_of object.now.entries)) }
    ensures few { IfOk result (λ xs. length xs ≤ most_items) }
{
    let list = ListUpTo {
        reader,
        most: MOST_INTERFACES,
    };
    let found = optional(alloc, object, key, &list)?;
    Ok(found.unwrap_or(Items::new(alloc)))
}

// Subscriptions come first.
#[tactic(auto, unfolding(crate::specs::Federate::inputs_of))]
fn inputs(alloc: Global, object: &Object) -> Result<Items<InputRecord>, ConfigRefusal>
    ensures read { Gives (λ xs. xs) result (inputs_of (pairs_of object.now.entries)) }
    ensures few { IfOk result (λ xs. length xs ≤ 2 * most_items) }
{
    let subscriptions = list(alloc, object, "subscriptions", SubscriptionReader)?;
    let inputs = list(alloc, object, "inputs", InputReader)?;
    match joined(subscriptions, inputs) {
        Ok(all) => Ok(all),
        Err(OutOfMemory) => Err(ConfigRefusal::memory(alloc)),
    }
}

fn joined(
    first: Items<InputRecord>,
    second: Items<InputRecord>,
) -> Result<Items<InputRecord>, OutOfMemory>
    ensures { IfOk result (λ all. all ≡ first ++ second) }
{
    let mut all = first.into_vec();
    let mut second = second.into_vec();
    all.append(&mut second)?;
    Ok(Items::from_vec(all))
}

#[tactic(auto, unfolding(crate::specs::Federate::settings_of))]
fn settings(alloc: Global, object: &Object) -> Result<Settings, ConfigRefusal>
    ensures { Gives (λ s. s) result (settings_of (pairs_of object.now.entries)) }
{
    let period = setting(alloc, object, "period")?;
    let offset = setting(alloc, object, "offset")?;
    let time_delta = setting(alloc, object, "timedelta")?;
    let input_delay = setting(alloc, object, "inputdelay")?;
    let output_delay = setting(alloc, object, "outputdelay")?;
    let uninterruptible = optional(alloc, object, "uninterruptible", &TrueOrFalse)?;
    let wait = optional(alloc, object, "waitforcurrenttimeupdate", &TrueOrFalse)?;
    let max_iterations = iterations(alloc, object)?;
    Ok(Settings {
        period,
        offset,
        time_delta,
        input_delay,
        output_delay,
        uninterruptible: uninterruptible.unwrap_or(false),
        wait: wait.unwrap_or(false),
        max_iterations,
    })
}

#[tactic(auto, using(crate::proofs::Bounds::setting_within))]
fn setting(alloc: Global, object: &Object, key: &str) -> Result<u64, ConfigRefusal>
    ensures read { Gives (λ t. t) result (setting_at key.now (pairs_of object.now.entries)) }
    ensures within { IfOk result (λ t. t ≤ longest_span) }
{
    let time = optional(alloc, object, key, &SETTING)?;
    Ok(time.unwrap_or(0))
}

#[tactic(auto, using(crate::proofs::Bounds::iterations_within))]
fn iterations(alloc: Global, object: &Object) -> Result<u32, ConfigRefusal>
    ensures read { Gives (λ n. n) result (iterations_at (codes "maxiterations") (pairs_of object.now.entries)) }
    ensures within { IfOk result (λ n. (1 ≤ n) × (n ≤ 10000)) }
{
    match optional(alloc, object, "maxiterations", &ITERATIONS)? {
        Some(count) => Ok(count as u32),
        None => Ok(50),
    }
}
