//! The time of one federate: its phase, what it asks for, and when it is granted what.
#![tactic(auto)]

use iteration_rules::Kind;

mod fed_time;
mod laws;
#[cfg(test)]
mod tests;

pub use fed_time::FedTime;
pub use laws::fed_laws;

/// Why a federate has ended.
#[derive(Clone, Copy, Debug, PartialEq, Eq)]
pub enum Cause {
    /// It said that it is done.
    Finished,
    /// It said that it failed, or a call of its script was refused.
    Failed,
    /// Its process ended early.
    Died,
    /// Another federate failed or died.
    Halted { fed: u16 },
}

/// What a federate may do next (docs/RULES.md, Phases).
#[derive(Clone, Copy, Debug, PartialEq, Eq)]
pub enum Phase {
    /// The federation hasn't begun.
    Created,
    /// It may publish, send, and ask to enter.
    Initializing,
    /// It asked to enter.
    Entering,
    /// It was granted a time.
    Running,
    /// It asked for a time.
    Waiting,
    Ended(Cause),
}

impl Phase {
    ghost use Rattle.std.specs.Prelude.{◌≡◌};
    ghost use Rattle.time_state.specs.Fed.{is_live, is_asking};

    /// Whether it hasn't ended.
    pub fn is_live(self) -> bool
        ensures { result ≡ is_live self }
    {
        !matches!(self, Phase::Ended(_))
    }

    /// Whether it waits for a grant.
    pub fn is_asking(self) -> bool
        ensures { result ≡ is_asking self }
    {
        matches!(self, Phase::Entering | Phase::Waiting)
    }
}

/// What a federate is granted: the time in nanoseconds, the micro step within it, and whether it
/// iterates (docs/RULES.md, Iterations).
#[derive(Clone, Copy, Debug, PartialEq, Eq)]
pub struct Grant {
    pub time: u64,
    pub micro: u64,
    pub kind: Kind,
}

/// Why a call is refused. Where several fit, it is the first of them.
#[derive(Clone, Copy, Debug, PartialEq, Eq)]
pub enum TimeRefusal {
    /// The federate has ended.
    Ended(Cause),
    /// It is in a phase that doesn't allow the call.
    WrongPhase(Phase),
    /// It was granted the greatest time, past which it can't ask.
    PastHorizon,
}
