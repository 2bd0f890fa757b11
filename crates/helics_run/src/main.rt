//! Runs a federation: `helics_run sim FILE` (docs/FORMATS.md).
#![tactic(auto)]

ghost use Rattle.std.specs.Prelude.{◌≡◌, drop};

mod command;
mod failure;
mod line;
mod printing;
mod status;

use crate::command::{command, tell};
use crate::line::OUT_OF_MEMORY;
use crate::status::Status;
use hel_lists::OutOfMemory;
use hel_outside::{RealFiles, StdSink};
use std::alloc::Global;
use std::env;
use std::io::ErrorKind;
use std::process::ExitCode;
use std::rt::Env;

// The words behind the program's own name.
fn behind_name(mut words: Vec<String>) -> Vec<String>
    ensures { result.items ≡ drop 1 words.items }
{
    if !words.is_empty() {
        words.remove(0);
    }
    words
}

// These of the program's arguments, and none where one of them isn't text.
fn words_of(rt: &(impl Env + Alloc<A = Global>)) -> Result<Vec<String>, OutOfMemory> {
    match env::args(rt) {
        Ok(all) => Ok(behind_name(all.collect(rt.alloc())?)),
        Err(e) if e.kind() == ErrorKind::OutOfMemory => Err(OutOfMemory),
        Err(_) => Ok(Vec::new(rt.alloc())),
    }
}

fn main(rt: HostRuntime) -> ExitCode {
    let mut files = RealFiles::new(rt.alloc(), &rt);
    let mut out = StdSink::new(rt.stdout());
    let mut err = StdSink::new(rt.stderr());
    let status = match words_of(&rt) {
        Ok(words) => command(rt.alloc(), &words, &mut files, &mut out, &mut err),
        Err(OutOfMemory) => tell(&mut err, Status::OutOfMemory, OUT_OF_MEMORY),
    };
    ExitCode::from(status.number())
}
