ghost use Rattle.std.specs.Prelude.{◌≡◌};

use hel_lists::OutOfMemory as NoMemory;
use helics_time::Stamp;
use time_state::{Cause, Phase, TimeRefusal};

/// Why a federate's call is refused, in the order in which the causes are looked for: docs/RULES.md, Calls.
#[derive(Clone, Copy, Debug, PartialEq, Eq)]
pub enum CallRefusal {
    Ended(Cause),
    /// The call has no place in this phase.
    WrongPhase(Phase),
    /// The federate has no such publication or endpoint.
    NotOwner,
    /// The value is of another kind than the publication's.
    KindMismatch,
    /// The name is no endpoint's.
    UnknownEndpoint,
    /// The endpoint may not send there.
    NotATarget,
    /// The federate's time is the greatest, 9,223,372,036,854,775,807 nanoseconds.
    PastHorizon,
    /// The federate's micro step is at least 2^62.
    MicroLimit,
    /// The federate's sequence number stands at 2^32.
    CountLimit,
    OutOfMemory,
}

/// Why a step of the machine isn't lawful, in the order in which the causes are looked for: docs/RULES.md, Steps.
#[derive(Clone, Copy, Debug, PartialEq, Eq)]
pub enum Unlawful {
    BegunTwice,
    /// A federate's number or a core's that the plan doesn't have.
    StrangeNumber,
    /// The federate's call is refused.
    Refused(CallRefusal),
    /// A grant to a federate that doesn't wait for one.
    NotAsked,
    /// A grant while an ancestor could still send what is due by the cut: the least such ancestor, and the
    /// stamp at which it would act next.
    Early { holder: u16, stamp: Stamp },
    /// A halt that names a federate which has neither failed nor died.
    NothingFailed,
    OutOfMemory,
}

impl From<TimeRefusal> for CallRefusal {
    ghost use Rattle.machine_laws.specs.Refusal.{refusal_by_time};

    ghost from_gives = { λ r e. e ≡ refusal_by_time r };

    fn from(refusal: TimeRefusal) -> Self {
        match refusal {
            TimeRefusal::Ended(cause) => CallRefusal::Ended(cause),
            TimeRefusal::WrongPhase(phase) => CallRefusal::WrongPhase(phase),
            TimeRefusal::PastHorizon => CallRefusal::PastHorizon,
        }
    }
}

impl From<NoMemory> for CallRefusal {
    ghost use Rattle.machine_laws.specs.declared.refusal.CallRefusal.TheVariants.{OutOfMemory};

    ghost from_gives = { λ _ e. e ≡ OutOfMemory };

    fn from(_: NoMemory) -> Self {
        CallRefusal::OutOfMemory
    }
}

impl From<CallRefusal> for Unlawful {
    ghost use Rattle.machine_laws.specs.declared.refusal.Unlawful.TheVariants.{Refused};

    ghost from_gives = { λ r e. e ≡ Refused r };

    fn from(refusal: CallRefusal) -> Self {
        Unlawful::Refused(refusal)
    }
}

impl From<NoMemory> for Unlawful {
    ghost use Rattle.machine_laws.specs.declared.refusal.Unlawful.TheVariants.{OutOfMemory};

    ghost from_gives = { λ _ e. e ≡ OutOfMemory };

    fn from(_: NoMemory) -> Self {
        Unlawful::OutOfMemory
    }
}
