mod ends;
mod faults;
mod messages;
mod plans;
mod refusals;
mod runs;
mod settings;

use super::command;
use crate::status::Status;
use hel_lists::OutOfMemory;
use hel_outside::{MemFiles, MemSink};
use std::alloc::{AllocError, Global};
use std::process::Abort;
use std::test::Fail;

// Federates A, A and B, and A to C.
const ALONE: &str = r#"{"federates":[{"name":"A","exec":"$self fed a.json"}]}"#;

const PAIR: &str =
    r#"{"federates":[{"name":"A","exec":"$self fed a.json"},{"name":"B","exec":"$self fed b.json"}]}"#;

const THREE: &str =
    r#"{"federates":[{"name":"A","exec":"$self fed a.json"},{"name":"B","exec":"$self fed b.json"},{"name":"C","exec":"$self fed c.json"}]}"#;

const FEDERATE: &str = r#"{"name":"A","script":[{"do":"request","time":"10ns"}]}"#;

const LOGS: &str =
    "federate 0 A\ngrant 0.000000000 1 next\ngrant 0.000000010 0 next\nend finished\n";

const BAD_WORDS: &str =
    "helics_run: bad words; use check FILE, sim FILE [--seed N] [--trace], load N, local FILE, run FILE, or fed FILE --link=ADDR/K\n";

// What the program is run on: words, files, and the calls that fail.
#[derive(Clone, Copy)]
struct Call<'a> {
    words: &'a str,
    files: &'a [(&'a str, &'a [u8])],
    failing_reads: &'a [u64],
    room: usize,
    failing_outs: &'a [u64],
    failing_errs: &'a [u64],
}

impl<'a> Call<'a> {
    fn new(words: &'a str, files: &'a [(&'a str, &'a [u8])]) -> Self {
        Call {
            words,
            files,
            failing_reads: &[],
            room: 2000,
            failing_outs: &[],
            failing_errs: &[],
        }
    }

    // Runs the program, and compares its status and what it wrote.
    fn expect(
        &self,
        rt: &impl Abort,
        alloc: Global,
        status: Status,
        out: &str,
        err: &str,
    ) -> Result<(), OutOfMemory> {
        let words = words_of(alloc, self.words)?;
        let mut files = MemFiles::new(alloc, self.files, self.failing_reads)?;
        let mut outs = MemSink::new(alloc, self.room, self.failing_outs)?;
        let mut errs = MemSink::new(alloc, 1000, self.failing_errs)?;
        let ended = command(alloc, &words, &mut files, &mut outs, &mut errs);
        assert_eq!(rt; ended, status, "{err}");
        assert!(rt; outs.bytes() == out.as_bytes(), "{err}");
        assert!(rt; errs.bytes() == err.as_bytes(), "{err}");
        Ok(())
    }
}

fn words_of(alloc: Global, text: &str) -> Result<Vec<String>, AllocError> {
    let mut words = Vec::new(alloc);
    for word in text.split_whitespace() {
        words.push(String::from_str(alloc, word)?)?;
    }
    Ok(words)
}

// Runs `sim run.json` over files of these paths and texts.
fn expect_of(
    rt: &impl Abort,
    alloc: Global,
    texts: &[(&str, &str)],
    status: Status,
    out: &str,
    err: &str,
) -> Result<(), OutOfMemory> {
    let mut files = Vec::new(alloc);
    for (path, text) in texts {
        files.push((*path, text.as_bytes()))?;
    }
    Call::new("sim run.json", &files).expect(rt, alloc, status, out, err)
}

#[test]
fn one_federate_asks_for_a_time(rt: HostRuntime) -> Result<(), Fail> {
    let texts = [("run.json", ALONE), ("a.json", FEDERATE)];
    expect_of(&rt, rt.alloc(), &texts, Status::Done, LOGS, "")?;
    Ok(())
}

#[test]
fn other_words(rt: HostRuntime) -> Result<(), Fail> {
    let table = [
        "",
        "simulate run.json",
        "sim",
        "sim a b",
        "sim a --seed 7",
        "check a --trace",
        "load 7",
        "local F",
        "run F",
        "fed F --link=a/0",
    ];
    for words in table {
        Call::new(words, &[]).expect(&rt, rt.alloc(), Status::BadWords, "", BAD_WORDS)?;
    }
    Ok(())
}
