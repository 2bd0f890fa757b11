//! Lines on standard error (docs/FORMATS.md, Error lines).
ghost use Rattle.std.specs.Prelude.{◌≡◌, IfOk, string_bytes};
ghost use Rattle.json.specs.Print.{quoted};
ghost use Rattle.helics_run.specs.Lines.{error_line, cannot_read, refused, failure_at, halted_by};
ghost use Rattle.one_place.specs.Members.{text_of as failure_text};

use federation_plan::federate_name;
use hel_lists::{OutOfMemory, Text};
use interface_names::FederateRecord;
use one_place::{FedLog, LogEnd};
use scenario_reading::Refusal;
use serde_json::Value as Json;
use std::alloc::Global;

pub const BAD_WORDS: &str =
    "helics_run: bad words; use check FILE, sim FILE [--seed N] [--trace], load N, local FILE, run FILE, or fed FILE --link=ADDR/K\n";

pub const CANNOT_WRITE: &str = "helics_run: cannot write\n";

pub const STUCK: &str = "helics_run: stuck\n";

pub const OUT_OF_MEMORY: &str = "helics_run: out of memory\n";

/// For a file that can't be read.
pub fn cannot_read_line(alloc: Global, path: &str) -> Result<Text, OutOfMemory>
    ensures { IfOk result (λ line. line ≡ error_line (cannot_read path.now)) }
{
    Ok(Text::of(format!(in alloc; "helics_run: cannot read {path}\n")?))
}

/// For a refusal.
pub fn refused_line(alloc: Global, refusal: &Refusal) -> Result<Text, OutOfMemory>
    ensures { IfOk result (λ line. line ≡ error_line (refused refusal.now)) }
{
    let text = refusal.text(alloc)?;
    let text = text.as_str();
    Ok(Text::of(format!(in alloc; "helics_run: refused: {text}\n")?))
}

/// For the federate whose failure ended a run.
pub fn halted_line(
    alloc: Global,
    federates: &[FederateRecord],
    logs: &[FedLog],
    failed: u16,
) -> Result<Text, OutOfMemory>
    ensures { IfOk result (λ line. line ≡ error_line (halted_by federates.now logs.now failed)) }
{
    let name = federate_name(federates, usize::from(failed));
    let text = quoted(alloc, failure_at(logs, failed))?;
    Ok(Text::of(format!(in alloc; "helics_run: halted by {name}: failed {text}\n")?))
}

// A text as JSON text.
fn quoted(alloc: Global, text: &str) -> Result<String, OutOfMemory>
    ensures { IfOk result (λ json. string_bytes json ≡ quoted text.now) }
{
    Ok(Json::try_from_str(alloc, text)?.to_string(alloc)?)
}

fn failure_at(logs: &[FedLog], f: u16) -> &str
    ensures { result.now ≡ failure_at logs.now f }
{
    match logs.get(usize::from(f)) {
        Some(log) => failure_text(&log.end),
        None => "",
    }
}

fn failure_text(end: &LogEnd) -> &str
    ensures { result.now ≡ failure_text end.now }
{
    match end {
        LogEnd::FailedText(text) => text.text(),
        _ => "",
    }
}
