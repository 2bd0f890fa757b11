use hel_lists::{Copied, OutOfMemory, Text};
use hel_values::{Payload, TextValue, Value};
use iteration_rules::Mode;
use std::alloc::Global;

/// What a scripted federate calls next. A time is in nanoseconds, and the actions of a script keep it
/// at most MAX (docs/RULES.md, Scripts).
#[derive(Debug, Drop)]
pub enum Action {
    Publish {
        /// The number of one of the federate's publications.
        publication: u16,
        value: Value,
    },
    Send {
        /// The number of one of the federate's endpoints.
        endpoint: u16,
        /// The global name of an endpoint; empty for the default one.
        destination: Text,
        payload: Payload,
    },
    Request {
        time: u64,
        mode: Mode,
    },
    Finish,
    /// The federate fails, with this text.
    Fail(TextValue),
}

impl Copied for Action {
    fn copy(&self, alloc: Global) -> Result<Self, OutOfMemory> {
        match self {
            Action::Publish { publication, value } => Ok(Action::Publish {
                publication: *publication,
                value: value.copy(alloc)?,
            }),
            Action::Send {
                endpoint,
                destination,
                payload,
            } => Ok(Action::Send {
                endpoint: *endpoint,
                destination: destination.copy(alloc)?,
                payload: payload.copy(alloc)?,
            }),
            Action::Request { time, mode } => Ok(Action::Request {
                time: *time,
                mode: *mode,
            }),
            Action::Finish => Ok(Action::Finish),
            Action::Fail(text) => Ok(Action::Fail(text.copy(alloc)?)),
        }
    }
}
