// Scripts of federates, and runs of them by functions that promise nothing.
ghost use Rattle.std.specs.Prelude.{IfOk};
ghost use Rattle.hel_lists.specs.Members.{Each};
ghost use Rattle.fed_script.specs.Script.{IsCourse, IsInitial, NamesTime};

use super::messages::payload;
use super::plans::{Row, Set, plan_with};
use fed_script::{Action, Script, Word, Words};
use hel_lists::{Items, Text};
use hel_values::Value;
use helics_time::MAX;
use iteration_rules::Mode;
use one_place::{Logs, Plan, Scenario, logs_in_order, reference};
use std::alloc::Global;
use std::test::Fail;

// A word of a script.
#[derive(Clone, Copy)]
pub enum Say {
    Ask(u64),
    AskLast,
    Force(u64),
    // a repeat of a forced request
    Forces(u32, u64),
    IfNeeded(u64),
    Publish(i64),
    // publishes the number of the first input and so much more
    Add(i64),
    // sends from the first endpoint to a name
    Send(&'static str, &'static str),
    // answers the letters of the first endpoint
    Echo,
    Finish,
}

fn sending(alloc: Global, to: &str, data: &str) -> Result<Word, Fail>
    ensures { IfOk result NamesTime }
{
    Ok(Word::Send {
        endpoint: 0,
        destination: Text::from_str(alloc, to)?,
        payload: payload(alloc, data)?,
    })
}

fn word_of(alloc: Global, say: Say) -> Result<Word, Fail>
    ensures { IfOk result NamesTime }
{
    match say {
        Say::Ask(time) => Ok(Word::Request(time.min(MAX))),
        Say::AskLast => Ok(Word::Request(MAX)),
        Say::Force(time) | Say::Forces(_, time) => Ok(Word::Iterate {
            time: time.min(MAX),
            mode: Mode::Force,
        }),
        Say::IfNeeded(time) => Ok(Word::Iterate {
            time: time.min(MAX),
            mode: Mode::IfNeeded,
        }),
        Say::Publish(number) => Ok(Word::Publish {
            publication: 0,
            value: Value::Int(number),
        }),
        Say::Add(add) => Ok(Word::PublishSum {
            publication: 0,
            input: 0,
            add,
        }),
        Say::Send(to, data) => sending(alloc, to, data),
        Say::Echo => Ok(Word::Echo(0)),
        Say::Finish => Ok(Word::Finish),
    }
}

fn initial_of(alloc: Global, number: Option<i64>) -> Result<Items<Action>, Fail>
    ensures { IfOk result IsInitial }
{
    let mut initial = Items::new(alloc);
    if let Some(number) = number {
        initial.push(Action::Publish {
            publication: 0,
            value: Value::Int(number),
        })?;
    }
    Ok(initial)
}

// What a federate publishes before it enters, and then says.
pub type Speech = (Option<i64>, &'static [Say]);

// Puts a word behind others.
fn put(alloc: Global, words: &mut Words, say: Say) -> Result<(), Fail> {
    let word = word_of(alloc, say)?;
    match say {
        Say::Forces(times, _) => {
            let mut body = Words::new(alloc);
            body.push(word)?;
            words.push_repeat(times, body)?;
        }
        _ => words.push(word)?,
    }
    Ok(())
}

fn script_of(alloc: Global, speech: &Speech) -> Result<Script, Fail>
    ensures { IfOk result IsCourse }
{
    let mut words = Words::new(alloc);
    for say in speech.1 {
        put(alloc, &mut words, *say)?;
    }
    Ok(Script::of(initial_of(alloc, speech.0)?, words))
}

pub fn scenario_of(
    alloc: Global,
    rows: &[Row],
    sets: &[Set],
    speeches: &[Speech],
) -> Result<Scenario, Fail> {
    scenario_over(alloc, plan_with(alloc, rows, sets)?, speeches)
}

fn scripts_of(alloc: Global, speeches: &[Speech]) -> Result<Items<Script>, Fail>
    ensures { IfOk result (λ scripts. Each IsCourse scripts) }
{
    let mut scripts = Items::new(alloc);
    for speech in speeches {
        scripts.push(script_of(alloc, speech)?)?;
    }
    Ok(scripts)
}

// What the federates of a plan say.
pub fn scenario_over(alloc: Global, plan: Plan, speeches: &[Speech]) -> Result<Scenario, Fail> {
    let scripts = scripts_of(alloc, speeches)?;
    if scripts.len() != usize::from(plan.count()) {
        return Err(Fail::from("a script for each"));
    }
    Ok(Scenario { plan, scripts })
}

/// The logs of the reference run.
pub fn run(alloc: Global, scenario: Scenario) -> Result<Logs, Fail> {
    Ok(reference(alloc, scenario)?)
}

/// The logs of a run in an order by numbers.
pub fn run_in_order(alloc: Global, scenario: Scenario, order: &[u32]) -> Result<Logs, Fail> {
    Ok(logs_in_order(alloc, scenario, order)?)
}
