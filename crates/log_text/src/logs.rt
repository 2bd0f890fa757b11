ghost use Rattle.std.specs.Prelude.{◌≡◌, ◌++◌, IfOk, OnOk, string_bytes};
ghost use Rattle.std.specs.List.{flat_map};
ghost use Rattle.log_text.specs.Text.{kind_word, cause_word, phase_word, end_words, grant_text, entry_text, fed_text, logs_text};

use crate::items::{quoted, write_items};
use federation_plan::{Plan, federate_name};
use hel_lists::OutOfMemory;
use helics_time::Seconds;
use interface_names::FederateRecord;
use iteration_rules::Kind;
use machine_laws::{FedLog, LogEnd, LogEntry, Logs};
use std::alloc::Global;
use time_state::{Cause, Phase};

fn kind_word(kind: Kind) -> &'static str
    ensures { result.now ≡ kind_word kind }
{
    match kind {
        Kind::NextStep => "next",
        Kind::Iterating => "iterating",
    }
}

fn cause_word(cause: Cause) -> &'static str
    ensures { result.now ≡ cause_word cause }
{
    match cause {
        Cause::Finished => "finished",
        Cause::Failed => "failed",
        Cause::Died => "died",
        Cause::Halted { .. } => "halted",
    }
}

fn phase_word(phase: Phase) -> &'static str
    ensures { result.now ≡ phase_word phase }
{
    match phase {
        Phase::Entering | Phase::Waiting => "waiting",
        _ => "open",
    }
}

fn write_end(alloc: Global, out: &mut String, end: &LogEnd) -> Result<(), OutOfMemory>
    ensures { OnOk result (string_bytes out.new ≡ string_bytes out.old ++ end_words end.now) }
{
    match end {
        LogEnd::Ended(cause) => out.push_str(cause_word(*cause))?,
        LogEnd::Open(phase) => out.push_str(phase_word(*phase))?,
        LogEnd::FailedText(text) => {
            let json = quoted(alloc, text.text())?;
            write!(out, "failed {json}")?;
        }
    }
    Ok(())
}

fn write_grant(out: &mut String, entry: &LogEntry) -> Result<(), OutOfMemory>
    ensures { OnOk result (string_bytes out.new ≡ string_bytes out.old ++ grant_text entry.now) }
{
    let grant = entry.grant;
    let kind = kind_word(grant.kind);
    writeln!(out, "grant {} {} {kind}", Seconds(grant.time), grant.micro)?;
    Ok(())
}

fn write_entries(
    alloc: Global,
    out: &mut String,
    federates: &[FederateRecord],
    entries: &[LogEntry],
) -> Result<(), OutOfMemory>
    ensures { OnOk result (string_bytes out.new ≡ string_bytes out.old ++ flat_map (entry_text federates.now) entries.now) }
{
    for entry in entries {
        write_grant(out, entry)?;
        write_items(alloc, out, federates, entry.items.as_slice())?;
    }
    Ok(())
}

fn write_fed(
    alloc: Global,
    out: &mut String,
    federates: &[FederateRecord],
    number: usize,
    log: &FedLog,
) -> Result<(), OutOfMemory>
    ensures { OnOk result (string_bytes out.new ≡ string_bytes out.old ++ fed_text federates.now number log.now) }
{
    let name = federate_name(federates, number);
    writeln!(out, "federate {number} {name}")?;
    write_entries(alloc, out, federates, log.entries.as_slice())?;
    out.push_str("end ")?;
    write_end(alloc, out, &log.end)?;
    out.push('\n')?;
    Ok(())
}

fn write_feds(
    alloc: Global,
    out: &mut String,
    federates: &[FederateRecord],
    logs: &[FedLog],
) -> Result<(), OutOfMemory>
    ensures { OnOk result (string_bytes out.new ≡ string_bytes out.old ++ logs_text federates.now logs.now) }
{
    for (number, log) in logs.iter().enumerate() {
        write_fed(alloc, out, federates, number, log)?;
    }
    Ok(())
}

/// The text of the logs of a plan's federates, the first log that of federate 0: for each a line
/// with its number and name, a line for each grant and for each item that it handed over, and a
/// line that says how it stands (docs/FORMATS.md, Log text). Where there is no federate of a
/// number, its name is blank; where its federate has no interface of a number, the interface's own
/// name is, as in `A/`.
pub fn log_text(alloc: Global, plan: &Plan, logs: &Logs) -> Result<String, OutOfMemory>
    ensures { IfOk result (λ text. string_bytes text ≡ logs_text plan.now.federates logs.now.feds) }
{
    let mut out = String::new(alloc);
    write_feds(alloc, &mut out, plan.federates(), logs.feds.as_slice())?;
    Ok(out)
}
