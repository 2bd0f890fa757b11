//! The files of a federation, in the order of reading (docs/FORMATS.md, Order of reading).
ghost use Rattle.std.specs.Prelude.{◌≡◌, ℕ, List, IfOk, IfSome, length};
ghost use Rattle.hel_lists.specs.Members.{Each};
ghost use Rattle.fed_script.specs.Script.{IsCourse};
ghost use Rattle.federation_plan.specs.Tree.{IsValid};
ghost use Rattle.fed_config.specs.Federate.{config_of};
ghost use Rattle.runner_config.specs.Runner.{runner_of, tree_with};
ghost use Rattle.scenario_reading.specs.Order.{for_each, bytes_of};
ghost use Rattle.scenario_reading.specs.Following.{Follows, CountsFaults};
ghost use Rattle.scenario_reading.specs.Verdict.{Says};
ghost use Rattle.scenario_reading.specs.Reading.{runner_told, config_told, path_told, named_by, runner_at, config_at};

use crate::refusal::Refusal;
use crate::unread::Unread;
use fed_config::{ConfigCause, FederateConfig, read_federate};
use hel_lists::{Copied, Items, OutOfMemory, Text};
use hel_outside::{FileRefusal, Files};
use runner_config::{Entry, Runner, RunnerRefusal, folder_of, joined, read_runner};
use std::alloc::Global;

// The bytes of a file.
fn read_bytes<F: Files>(alloc: Global, files: &mut F, path: &str) -> Result<Vec<u8>, Unread>
    ensures follows { Follows (λ v. v.items) (F.content files.old) (bytes_of path.now) result }
    ensures faults { CountsFaults result (F.faults files.old) (F.faults files.new) (F.failed_path files.new) }
    ensures same { (p : List ℕ) → F.content files.new p ≡ F.content files.old p }
{
    let spelled = Text::from_str(alloc, path)?;
    match files.read(alloc, path) {
        Ok(bytes) => Ok(bytes),
        Err(FileRefusal::Failed) => Err(Unread::FileFault(spelled)),
        Err(FileRefusal::TooLarge) => Err(Unread::Refused(Refusal::FileTooLarge(spelled))),
        Err(FileRefusal::OutOfMemory) => Err(Unread::OutOfMemory),
    }
}

// What the runner file at this path says.
fn runner_of(alloc: Global, path: Text, bytes: &[u8]) -> Result<Runner, Unread>
    ensures says { Says (λ r. r) (runner_told path (runner_of bytes.now)) result }
    ensures tree { IfOk result (λ r. IsValid (tree_with r)) }
{
    match read_runner(alloc, bytes) {
        Ok(runner) => Ok(runner),
        Err(RunnerRefusal::OutOfMemory) => Err(Unread::OutOfMemory),
        Err(refusal) => Err(Unread::Refused(Refusal::Runner { path, refusal })),
    }
}

/// Reads the runner file.
pub fn runner_at<F: Files>(alloc: Global, files: &mut F, file: &str) -> Result<Runner, Unread>
    ensures follows { Follows (λ r. r) (F.content files.old) (runner_at file.now) result }
    ensures tree { IfOk result (λ r. IsValid (tree_with r)) }
    ensures faults { CountsFaults result (F.faults files.old) (F.faults files.new) (F.failed_path files.new) }
    ensures same { (p : List ℕ) → F.content files.new p ≡ F.content files.old p }
{
    let path = Text::from_str(alloc, file)?;
    let bytes = read_bytes(alloc, files, file)?;
    runner_of(alloc, path, &bytes)
}

// The path of an entry's federate file, beside the runner file.
fn path_of(alloc: Global, file: &str, entry: &Entry) -> Result<Text, Unread>
    ensures { Says (λ p. p) (path_told file.now entry.now entry.now.config) result }
{
    let Some(config) = &entry.config else {
        return Err(Unread::Refused(Refusal::NoConfig {
            path: Text::from_str(alloc, file)?,
            place: entry.place,
        }));
    };
    let directory = joined(alloc, folder_of(file), entry.directory.as_str())?;
    let path = joined(alloc, directory.as_str(), config.as_str())?;
    Ok(Text::of(path))
}

// What the federate file at this path says.
fn config_of(alloc: Global, path: Text, bytes: &[u8]) -> Result<FederateConfig, Unread>
    ensures says { Says (λ c. c) (config_told path (config_of bytes.now)) result }
    ensures rules { IfOk result (λ c. IfSome c.script IsCourse) }
{
    match read_federate(alloc, bytes) {
        Ok(config) => Ok(config),
        Err(refusal) => {
            if refusal.cause == ConfigCause::OutOfMemory {
                return Err(Unread::OutOfMemory);
            }
            Err(Unread::Refused(Refusal::Config { path, refusal }))
        }
    }
}

// A federate that its file doesn't name has its entry's name.
fn named_by(
    alloc: Global,
    name: &Text,
    config: FederateConfig,
) -> Result<FederateConfig, OutOfMemory>
    ensures { IfOk result (λ c. c ≡ named_by name.now config) }
{
    let mut config = config;
    if !config.named {
        config.federate.name = name.copy(alloc)?;
    }
    Ok(config)
}

// Reads the federate file of an entry.
#[tactic(auto, unfolding(crate::specs::Reading::config_at))]
fn config_at<F: Files>(
    alloc: Global,
    files: &mut F,
    file: &str,
    entry: &Entry,
) -> Result<FederateConfig, Unread>
    ensures follows { Follows (λ c. c) (F.content files.old) (config_at file.now entry.now) result }
    ensures rules { IfOk result (λ c. IfSome c.script IsCourse) }
    ensures faults { CountsFaults result (F.faults files.old) (F.faults files.new) (F.failed_path files.new) }
    ensures same { (p : List ℕ) → F.content files.new p ≡ F.content files.old p }
{
    let path = path_of(alloc, file, entry)?;
    let bytes = read_bytes(alloc, files, path.as_str())?;
    let config = config_of(alloc, path, &bytes)?;
    let named = named_by(alloc, &entry.name, config)?;
    Ok(named)
}

/// Reads the federate files of all entries, in their order.
pub fn configs_of<F: Files>(
    alloc: Global,
    files: &mut F,
    file: &str,
    entries: &[Entry],
) -> Result<Items<FederateConfig>, Unread>
    ensures follows { Follows (λ all. all) (F.content files.old) (for_each (config_at file.now) entries.now) result }
    ensures each { IfOk result (λ all. length all ≡ length entries.now) }
    ensures rules { IfOk result (Each (λ c. IfSome c.script IsCourse)) }
    ensures faults { CountsFaults result (F.faults files.old) (F.faults files.new) (F.failed_path files.new) }
    ensures same { (p : List ℕ) → F.content files.new p ≡ F.content files.old p }
{
    let mut all = Items::new(alloc);
    for entry in entries {
        let config = config_at(alloc, files, file, entry)?;
        all.push(config)?;
    }
    Ok(all)
}
