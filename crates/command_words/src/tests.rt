use crate::{Asked, Verb, WordsRefusal, read_words};
use std::alloc::Global;
use std::test::Fail;

// What these words ask for.
fn asked_of(alloc: Global, words: &[&str]) -> Result<Option<Asked>, Fail> {
    let mut all = Vec::new(alloc);
    for word in words {
        all.push(String::from_str(alloc, word)?)?;
    }
    match read_words(alloc, all.as_slice()) {
        Ok(found) => Ok(Some(found)),
        Err(WordsRefusal::BadWords) => Ok(None),
        Err(WordsRefusal::OutOfMemory) => Err(Fail::from("out of memory")),
    }
}

#[test]
fn words_that_ask(rt: HostRuntime) -> Result<(), Fail> {
    let table: [(&[&str], Verb, &str); 6] = [
        (&["check", "run.json"], Verb::Check, "run.json"),
        (&["sim", "run.json"], Verb::Sim, "run.json"),
        (&["sim", ""], Verb::Sim, ""),
        (&["sim", "-"], Verb::Sim, "-"),
        (&["check", "--", "-f"], Verb::Check, "-f"),
        (&["sim", "--", "--seed"], Verb::Sim, "--seed"),
    ];
    for (words, verb, file) in table {
        let found = asked_of(rt.alloc(), words)?;
        assert!(rt;
            found.is_some_and(|a| a.verb == verb && a.file.as_str() == file),
            "{words:?}"
        );
    }
    Ok(())
}

#[test]
fn words_that_do_not(rt: HostRuntime) -> Result<(), Fail> {
    let table: [&[&str]; 13] = [
        &[],
        &["check"],
        &["sim"],
        &["simulate", "run.json"],
        &["Sim", "run.json"],
        &["sim", "run.json", "more.json"],
        &["sim", "run.json", "--trace"],
        &["sim", "run.json", "--seed", "7"],
        &["check", "--help"],
        &["sim", "-h"],
        &["local", "run.json"],
        &["load", "7"],
        &["", "run.json"],
    ];
    for words in table {
        let found = asked_of(rt.alloc(), words)?;
        assert!(rt; found.is_none(), "{words:?}");
    }
    Ok(())
}
