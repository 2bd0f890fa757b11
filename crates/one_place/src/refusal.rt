// Why a federate's step is refused, by its time.
ghost use Rattle.std.specs.Prelude.{◌≡◌, None, Some, option_map, if◌then◌else◌};
ghost use Rattle.std.specs.Option.{option_or};
ghost use Rattle.time_state.specs.Fed.{enter_refusal, request_refusal};
ghost use Rattle.machine_laws.specs.declared.refusal.Unlawful.TheVariants.{NothingFailed};
ghost use Rattle.machine_laws.specs.Refusal.{refusal_by_time};
ghost use Rattle.machine_laws.specs.Machine.{limit_refusal, by_phase, end_refusal, failed_or_died};
ghost use Rattle.one_place.specs.Members.{sender_of};

use helics_time::MAX;
use machine_laws::{CallRefusal, Unlawful};
use time_state::{Cause, FedTime, Phase};

// A micro step from which on a federate sends nothing.
const MICRO_LIMIT: u64 = 1 << 62;

// A sequence number that isn't given out.
const COUNT_LIMIT: u64 = 1 << 32;

/// Entering is a call of the initializing mode.
pub fn enter_refusal(time: &FedTime) -> Option<CallRefusal>
    ensures { result ≡ option_map refusal_by_time (enter_refusal time.now) }
{
    match time.phase() {
        Phase::Initializing => None,
        Phase::Ended(cause) => Some(CallRefusal::Ended(cause)),
        other => Some(CallRefusal::WrongPhase(other)),
    }
}

/// A call that sends has its place where a script may end; then the plan may object to it, and then
/// a limit of its federate.
#[tactic(auto, using(crate::proofs::Lawful::phase_first))]
pub fn make_refusal(time: &FedTime, objection: Option<CallRefusal>, seq: u64) -> Option<CallRefusal>
    ensures { result ≡ by_phase time.now.phase (option_or objection (limit_refusal (sender_of time.now seq))) }
{
    finish_refusal(time)
        .or(objection)
        .or(limit_refusal(time, seq))
}

// A federate sends nothing at the greatest time, from the greatest micro step on, or once its sequence
// numbers are given out.
fn limit_refusal(time: &FedTime, seq: u64) -> Option<CallRefusal>
    ensures { result ≡ limit_refusal (sender_of time.now seq) }
{
    let own = time.own();
    if own.time == MAX {
        Some(CallRefusal::PastHorizon)
    } else if own.micro >= MICRO_LIMIT {
        Some(CallRefusal::MicroLimit)
    } else if seq >= COUNT_LIMIT {
        Some(CallRefusal::CountLimit)
    } else {
        None
    }
}

/// A time is asked for by a federate that runs, and not past the greatest time.
pub fn request_refusal(time: &FedTime) -> Option<CallRefusal>
    ensures { result ≡ option_map refusal_by_time (request_refusal time.now) }
{
    match time.phase() {
        Phase::Running if time.own().time == MAX => Some(CallRefusal::PastHorizon),
        Phase::Running => None,
        Phase::Ended(cause) => Some(CallRefusal::Ended(cause)),
        other => Some(CallRefusal::WrongPhase(other)),
    }
}

/// A script ends in the initializing mode or while the federate runs.
pub fn finish_refusal(time: &FedTime) -> Option<CallRefusal>
    ensures { result ≡ by_phase time.now.phase None }
{
    match time.phase() {
        Phase::Initializing | Phase::Running => None,
        Phase::Ended(cause) => Some(CallRefusal::Ended(cause)),
        other => Some(CallRefusal::WrongPhase(other)),
    }
}

/// A federate fails or dies in every phase but once it has ended.
pub fn end_refusal(time: &FedTime) -> Option<CallRefusal>
    ensures { result ≡ end_refusal time.now.phase }
{
    match time.phase() {
        Phase::Ended(cause) => Some(CallRefusal::Ended(cause)),
        _ => None,
    }
}

/// A halt names a federate that has failed or died.
pub fn halt_refusal(time: &FedTime) -> Option<Unlawful>
    ensures { result ≡ (if failed_or_died time.now.phase then None else Some NothingFailed) }
{
    match time.phase() {
        Phase::Ended(Cause::Failed | Cause::Died) => None,
        _ => Some(Unlawful::NothingFailed),
    }
}
