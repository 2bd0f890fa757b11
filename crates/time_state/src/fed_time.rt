ghost use Rattle.std.specs.Prelude.{◌≡◌, ◌≤◌, true, OnOk, OnErr, ◌+◌};
ghost use Rattle.std.specs.Result.{result_err};
ghost use Rattle.std.specs.Option.{option_to_list, ForSome};
ghost use Rattle.helics_time.specs.Time.{max_time};
ghost use Rattle.helics_time.specs.Stamp.{before, IsDue};
ghost use Rattle.helics_time.specs.Settings.{delta_of};
ghost use Rattle.time_state.specs.Fed.{IsStep, is_asking, is_iterating, created, granted, granted_at, requested, ended, event_of, cut_of, cut_at, request_stamp, item_stamp, is_live, grant_of, grant_at, enter_refusal, request_refusal};

use crate::{Cause, Grant, Phase, TimeRefusal};
use helics_time::{MAX, Settings, Stamp};
use iteration_rules::{Kind, Mode, effective_mode};
use std::marker::Model;

/// The time of one federate. Where a call takes `least`, that is the least due of the items that the
/// federate wasn't handed yet, and `None` where there is none.
#[derive(Debug, Drop)]
pub struct FedTime {
    settings: Settings,
    phase: Phase,
    last: Stamp,
    time: u64,
    mode: Mode,
    last_cut: Stamp,
    count: u32,
    kept: Stamp,
}

impl Model for FedTime {
    ghost use Rattle.time_state.specs.Fed.{Fed, IsFed};

    ghost Value = { Fed };

    ghost use Rattle.time_state.specs.FedTime.{fed_of};

    ghost view = { fed_of };

    ghost invariant = { λ f. IsFed (fed_of f) };
}

impl FedTime {
    /// A federate with these settings, before the federation has begun.
    pub fn new(settings: Settings) -> FedTime
        ensures { result ≡ created settings }
    {
        let zero = Stamp { time: 0, micro: 0 };
        FedTime {
            settings,
            phase: Phase::Created,
            last: zero,
            time: 0,
            mode: Mode::Next,
            last_cut: zero,
            count: 0,
            kept: zero,
        }
    }

    /// Its phase.
    pub fn phase(&self) -> Phase
        ensures { result ≡ self.now.phase }
    {
        self.phase
    }

    /// The stamp of its last grant, (0, 0) before the first.
    pub fn own(&self) -> Stamp
        ensures { result ≡ self.now.last }
    {
        self.last
    }

    /// The cut of its last grant, (0, 0) before the first.
    pub fn last_cut(&self) -> Stamp
        ensures { result ≡ self.now.last_cut }
    {
        self.last_cut
    }

    /// The federation begins.
    pub fn begin(&mut self)
        requires { self.old.phase ≡ Phase.Created }
        ensures { self.new ≡ record self.old { phase = Phase.Initializing } }
    {
        self.phase = Phase::Initializing;
    }

    /// Asks to enter the executing mode.
    pub fn enter(&mut self) -> Result<(), TimeRefusal>
        ensures answer { enter_refusal self.old ≡ result_err result }
        ensures ok { OnOk result (self.new ≡ record self.old { phase = Phase.Entering }) }
        ensures err { OnErr result (self.new ≡ self.old) }
    {
        match self.phase {
            Phase::Initializing => {
                self.phase = Phase::Entering;
                Ok(())
            }
            Phase::Ended(cause) => Err(TimeRefusal::Ended(cause)),
            other => Err(TimeRefusal::WrongPhase(other)),
        }
    }

    /// Asks for a time, in nanoseconds.
    pub fn request(&mut self, time: u64, mode: Mode) -> Result<(), TimeRefusal>
        requires { time ≤ max_time }
        ensures answer { request_refusal self.old ≡ result_err result }
        ensures ok { OnOk result (self.new ≡ requested self.old time mode) }
        ensures err { OnErr result (self.new ≡ self.old) }
    {
        match self.phase {
            Phase::Running => {
                if self.last.time == MAX {
                    return Err(TimeRefusal::PastHorizon);
                }
                self.mode = effective_mode(mode, self.count, self.settings.max_iterations);
                self.time = time;
                self.phase = Phase::Waiting;
                Ok(())
            }
            Phase::Ended(cause) => Err(TimeRefusal::Ended(cause)),
            other => Err(TimeRefusal::WrongPhase(other)),
        }
    }

    // The stamp of what it asks for.
    fn asked(&self) -> Stamp
        requires { self.now.phase ≡ Phase.Waiting }
        ensures value { result ≡ request_stamp self.now }
        ensures step { IsStep self.now result }
    {
        match self.mode {
            Mode::Force => Stamp {
                time: self.last.time,
                micro: self.last.micro + 1,
            },
            _ => Stamp {
                time: self.settings.up(self.time.max(self.earliest())),
                micro: 0,
            },
        }
    }

    // The earliest time of a grant that doesn't iterate.
    fn earliest(&self) -> u64
        requires { self.now.phase ≡ Phase.Waiting }
        ensures value { result ≡ self.now.last.time + delta_of self.now.settings }
        ensures bound { result ≤ max_time }
    {
        self.last.time + self.settings.time_delta.max(1)
    }

    // The stamp at which it may be handed an item of this due.
    fn reached(&self, due: Stamp) -> Stamp
        requires waits { self.now.phase ≡ Phase.Waiting }
        requires due { IsDue due }
        ensures value { result ≡ item_stamp self.now due }
        ensures step { IsStep self.now result }
    {
        if self.mode != Mode::Next && due.time <= self.last.time {
            let next = self.last.micro + 1;
            let micro = if due.time == self.last.time {
                next.max(due.micro)
            } else {
                next
            };
            return Stamp {
                time: self.last.time,
                micro,
            };
        }
        let time = self.settings.up(due.time.max(self.earliest()));
        if time == due.time {
            due
        } else {
            Stamp { time, micro: 0 }
        }
    }

    /// The stamp at which it acts next (docs/RULES.md, Event). Where it waits for a grant, that is the
    /// stamp of the grant.
    pub fn event(&self, least: Option<Stamp>) -> Stamp
        requires { ForSome least IsDue }
        ensures value { result ≡ event_of self.now (option_to_list least) }
        ensures step { is_asking self.now.phase ≡ true → IsStep self.now result }
    {
        match self.phase {
            Phase::Created | Phase::Initializing => Stamp { time: 0, micro: 0 },
            Phase::Entering => Stamp { time: 0, micro: 1 },
            Phase::Running => self.last,
            Phase::Waiting => {
                let asked = self.asked();
                if self.settings.uninterruptible {
                    return asked;
                }
                match least {
                    Some(due) => asked.min(self.reached(due)),
                    None => asked,
                }
            }
            Phase::Ended(Cause::Finished) => Stamp::never(),
            Phase::Ended(_) => self.kept,
        }
    }

    /// What is due by it is handed over at the next grant (docs/RULES.md, Cut).
    pub fn cut(&self, least: Option<Stamp>) -> Stamp
        requires { ForSome least IsDue }
        ensures { result ≡ cut_of self.now (option_to_list least) }
    {
        self.cut_at(self.event(least))
    }

    /// Grants what it waits for.
    pub fn grant(&mut self, least: Option<Stamp>) -> Grant
        requires asks { is_asking self.old.phase ≡ true }
        requires due { ForSome least IsDue }
        ensures grant { result ≡ grant_of self.old (option_to_list least) }
        ensures after { self.new ≡ granted self.old (option_to_list least) }
        ensures rises { before self.old.last self.new.last ≡ true }
    {
        self.grant_at(self.event(least))
    }

    /// Ends it. It keeps its event.
    pub fn end(&mut self, cause: Cause, least: Option<Stamp>)
        requires live { is_live self.old.phase ≡ true }
        requires due { ForSome least IsDue }
        ensures { self.new ≡ ended self.old cause (option_to_list least) }
    {
        self.kept = self.event(least);
        self.phase = Phase::Ended(cause);
    }
}

// The same for a caller that has the event.
impl FedTime {
    fn is_iterating(&self, stamp: Stamp) -> bool
        ensures { result ≡ is_iterating self.now stamp }
    {
        self.phase == Phase::Waiting && stamp.time == self.last.time
    }

    /// `cut`, where `stamp` is the event.
    pub fn cut_at(&self, stamp: Stamp) -> Stamp
        ensures { result ≡ cut_at self.now stamp }
    {
        if self.phase == Phase::Waiting && self.settings.wait && stamp.time != self.last.time {
            stamp.next()
        } else {
            stamp
        }
    }

    /// What the next grant tells, where `stamp` is the event.
    pub fn next_grant_at(&self, stamp: Stamp) -> Grant
        ensures { result ≡ grant_at self.now stamp }
    {
        Grant {
            time: stamp.time,
            micro: stamp.micro,
            kind: if self.is_iterating(stamp) {
                Kind::Iterating
            } else {
                Kind::NextStep
            },
        }
    }

    /// `grant`, where `stamp` is the event.
    pub fn grant_at(&mut self, stamp: Stamp) -> Grant
        requires asks { is_asking self.old.phase ≡ true }
        requires step { IsStep self.old stamp }
        ensures grant { result ≡ grant_at self.old stamp }
        ensures after { self.new ≡ granted_at self.old stamp }
    {
        let grant = self.next_grant_at(stamp);
        let cut = self.cut_at(stamp);
        self.count = match grant.kind {
            Kind::Iterating => self.count + 1,
            Kind::NextStep => 0,
        };
        self.last = stamp;
        self.last_cut = cut;
        self.phase = Phase::Running;
        grant
    }
}
