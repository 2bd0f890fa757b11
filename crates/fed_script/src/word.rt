ghost use Rattle.std.specs.Prelude.{◌≡◌, IfOk, is_some};
ghost use Rattle.std.specs.Bool.{then_some};
ghost use Rattle.std.specs.Option.{option_copied};
ghost use Rattle.fed_script.specs.Script.{action_of, answer_to, gives, is_echo};

use crate::{Action, View};
use endpoint_messages::Letter;
use hel_lists::{Copied, OutOfMemory, Text};
use hel_values::{Payload, TextValue, Value};
use iteration_rules::Mode;
use std::alloc::Global;

/// A word of a script. Interfaces go by their numbers within the federate, and times are in
/// nanoseconds (docs/RULES.md, Scripts).
#[derive(Debug, Drop)]
pub enum Word {
    Publish {
        publication: u16,
        value: Value,
    },
    /// Publishes the integer that an input holds plus `add`. The sum stops at the ends of 64 signed
    /// bits. An input that holds no integer, or that there isn't, counts as 0.
    PublishSum {
        publication: u16,
        input: u16,
        add: i64,
    },
    Send {
        endpoint: u16,
        /// The global name of an endpoint; empty for the default one.
        destination: Text,
        payload: Payload,
    },
    /// Sends the payload of each letter of this endpoint back to its source, the oldest first.
    Echo(u16),
    /// Requests this time.
    Request(u64),
    /// Requests the time that is so much after the present one, and at most MAX.
    Advance(u64),
    /// Requests this time in a mode of its own.
    Iterate {
        time: u64,
        mode: Mode,
    },
    Finish,
    /// The federate fails, with this text.
    Fail(TextValue),
}

impl Word {
    /// Whether the word gives anything over a view.
    pub(crate) fn gives(&self, view: &View) -> bool
        ensures { result ≡ gives view.now self.now }
    {
        match self {
            Word::Echo(endpoint) => view.oldest(*endpoint).is_some(),
            _ => true,
        }
    }

    pub(crate) fn is_echo(&self) -> bool
        ensures { result ≡ is_echo self.now }
    {
        matches!(self, Word::Echo(_))
    }

    /// The word, where it gives something over a view.
    pub(crate) fn if_given(&self, view: &View) -> Option<&Word>
        ensures { option_copied result ≡ then_some (gives view.now self.now) self.now }
    {
        if self.gives(view) { Some(self) } else { None }
    }

    /// What the word gives over a view.
    pub(crate) fn action(&self, alloc: Global, view: &View) -> Result<Option<Action>, OutOfMemory>
        ensures { IfOk result (λ action. action ≡ action_of view.now self.now) }
    {
        match self {
            Word::Publish { publication, value } => Ok(Some(Action::Publish {
                publication: *publication,
                value: value.copy(alloc)?,
            })),
            Word::PublishSum {
                publication,
                input,
                add,
            } => Ok(Some(Action::Publish {
                publication: *publication,
                value: Value::Int(view.integer(*input).saturating_add(*add)),
            })),
            Word::Send {
                endpoint,
                destination,
                payload,
            } => Ok(Some(send(alloc, *endpoint, destination, payload)?)),
            Word::Echo(endpoint) => match view.oldest(*endpoint) {
                None => Ok(None),
                Some(letter) => Ok(Some(send(alloc, *endpoint, &letter.source, &letter.payload)?)),
            },
            Word::Request(time) => Ok(Some(next_step(*time))),
            Word::Advance(by) => Ok(Some(next_step(view.later(*by)))),
            Word::Iterate { time, mode } => Ok(Some(Action::Request {
                time: *time,
                mode: *mode,
            })),
            Word::Finish => Ok(Some(Action::Finish)),
            Word::Fail(text) => Ok(Some(Action::Fail(text.copy(alloc)?))),
        }
    }
}

fn send(
    alloc: Global,
    endpoint: u16,
    destination: &Text,
    payload: &Payload,
) -> Result<Action, OutOfMemory>
    ensures { IfOk result (λ action. action ≡ Action.Send endpoint destination.now payload.now) }
{
    Ok(Action::Send {
        endpoint,
        destination: destination.copy(alloc)?,
        payload: payload.copy(alloc)?,
    })
}

fn next_step(time: u64) -> Action
    ensures { result ≡ Action.Request time Mode.Next }
{
    Action::Request {
        time,
        mode: Mode::Next,
    }
}
