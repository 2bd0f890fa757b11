// All federates of the machine.
ghost use Rattle.std.specs.Prelude.{◌≡◌, ◌≢◌, ◌≤◌, ◌<◌, ◌^◌, ℕ, [], None, OnOk, OnErr, IfOk, IfSome, IfNone, true, false, length, slice_index_or, map, replicate};
ghost use Rattle.std.specs.Borrow.{sem};
ghost use Rattle.hel_lists.specs.Lends.{lends_item};
ghost use Rattle.hel_lists.specs.Members.{Each};
ghost use Rattle.helics_time.specs.Time.{max_time};
ghost use Rattle.due_queue.specs.Order.{insert_all};
ghost use Rattle.time_state.specs.Fed.{IsFed, enter_refusal, request_refusal, is_asking, is_live};
ghost use Rattle.machine_laws.specs.contracts.logs.FedLog.{the_row as log_row};
ghost use Rattle.machine_laws.specs.Machine.{new_member, member_at, event_in, cut_in, dues_to, handed_in, left_in, with_member, begun_member, entered_member, called_member, requested_member, granted_member, ended_member, failed_member, halted_if, halted_from, limit_refusal, log_of};
ghost use Rattle.interface_names.specs.declared.records.FederateRecord.{FederateRecord};
ghost use Rattle.federation_plan.specs.Plan.{IsKept};
ghost use Rattle.one_place.specs.Members.{AreMade, IsClockOf, new_clocks, blank_log, log_at};

use crate::queues;
use crate::seat::{self, Clock};
use due_queue::Item;
use hel_lists::{Items, OutOfMemory};
use hel_values::TextValue;
use helics_time::Stamp;
use interface_names::FederateRecord;
use iteration_rules::Mode;
use machine_laws::{FedLog, LogEnd, LogEntry, Logs};
use std::alloc::Global;
use std::marker::Model;
use time_state::{Cause, FedTime, Phase};

/// The federates in order of their numbers, with the items under way to each. What changes often
/// stands apart from the logs.
#[derive(Debug, Drop)]
pub struct Members {
    begun: bool,
    clocks: Vec<Clock>,
    logs: Logs,
}

impl Model for Members {
    ghost use Rattle.machine_laws.specs.Machine.{State};

    ghost Value = { State };

    ghost use Rattle.one_place.specs.Members.{state_of, AreKept};

    ghost view = { λ m. state_of m.begun m.clocks.items m.logs.feds };

    ghost invariant = { λ m. AreKept m.clocks.items m.logs.feds };
}

fn new_clocks(alloc: Global, federates: &[FederateRecord]) -> Result<Vec<Clock>, OutOfMemory>
    ensures { IfOk result (λ clocks. clocks.items ≡ new_clocks federates.now) }
{
    let mut clocks = Vec::with_capacity(alloc, federates.len())?;
    for federate in federates {
        clocks.push(Clock::new(alloc, federate.settings))?;
    }
    Ok(clocks)
}

fn new_logs(alloc: Global, count: usize) -> Result<Items<FedLog>, OutOfMemory>
    ensures { IfOk result (λ logs. logs ≡ replicate count blank_log) }
{
    let mut logs = Items::new(alloc);
    for _ in 0..count {
        logs.push(FedLog {
            entries: Items::new(alloc),
            end: LogEnd::Open(Phase::Created),
        })?;
    }
    Ok(logs)
}

// The log of a federate, to be written.
fn log_mut(logs: &mut Items<FedLog>, at: usize) -> &mut FedLog
    requires { at < length logs.old }
    ensures* writes_back { sem 𝓛 (lends_item log_row logs.entry at result) }
    ensures value { log_at logs.old at ≡ result.now }
{
    logs.at_mut(at)
}

#[tactic(auto, using(crate::proofs::Seats::seats))]
impl Members {
    /// Federates that are Created, with their settings.
    pub fn new(alloc: Global, federates: &[FederateRecord]) -> Result<Members, OutOfMemory>
        requires { Each IsKept federates.now }
        ensures { IfOk result (λ members. members ≡ record { begun = false; members = map new_member (map (λ (f : FederateRecord). f.settings) federates.now); items = [] }) }
    {
        let clocks = new_clocks(alloc, federates)?;
        let feds = new_logs(alloc, federates.len())?;
        Ok(Members {
            begun: false,
            clocks,
            logs: Logs { feds },
        })
    }

    /// Whether the machine has begun.
    pub fn begun(&self) -> bool
        ensures { result ≡ self.now.begun }
    {
        self.begun
    }

    pub fn len(&self) -> usize
        ensures { result ≡ length self.now.members }
    {
        self.clocks.len()
    }

    // The clock of a federate, and none where there is none of that number.
    fn clock(&self, f: u16) -> Option<&Clock>
        ensures known { IfSome result (λ clock. IsClockOf self.now f clock.now) }
        ensures strange { IfNone result (length self.now.members ≤ f) }
    {
        self.clocks.get(usize::from(f))
    }

    /// The clock of a federate that calls.
    pub fn caller(&self, at: usize) -> &Clock
        requires { at < length self.now.members }
        ensures clock { IsClockOf self.now at result.now }
        ensures fed { IsFed result.now.time }
    {
        &self.clocks[at]
    }

    /// The time of a federate, and none where there is none of that number.
    pub fn time(&self, f: u16) -> Option<&FedTime>
        ensures known { IfSome result (λ time. (f < length self.now.members) × (time.now ≡ (member_at self.now f).time)) }
        ensures strange { IfNone result (length self.now.members ≤ f) }
    {
        match self.clock(f) {
            Some(clock) => Some(&clock.time),
            None => None,
        }
    }

    /// The next sequence number of a federate.
    #[tactic(auto, using(crate::proofs::Seats::strange_seq))]
    pub fn seq(&self, f: u16) -> u64
        ensures { result ≡ (member_at self.now f).seq }
    {
        match self.clock(f) {
            Some(clock) => clock.seq,
            None => 0,
        }
    }

    /// The stamp at which a federate acts next.
    #[tactic(auto, using(crate::proofs::Seats::strange_event))]
    pub fn event(&self, f: u16) -> Stamp
        ensures { result ≡ event_in self.now f }
    {
        match self.clock(f) {
            Some(clock) => clock.event,
            None => Stamp { time: 0, micro: 0 },
        }
    }

    /// What is due by it is handed over at a federate's next grant.
    #[tactic(auto, using(crate::proofs::Seats::strange_cut))]
    pub fn cut(&self, f: u16) -> Stamp
        ensures { result ≡ cut_in self.now f }
    {
        match self.clock(f) {
            Some(clock) => clock.time.cut_at(clock.event),
            None => Stamp { time: 0, micro: 0 },
        }
    }

    pub fn logs(&self) -> &Logs
        ensures { result.now.feds ≡ map log_of self.now.members }
    {
        &self.logs
    }

    /// What a federate was granted so far.
    pub fn entries(&self, at: usize) -> &[LogEntry]
        requires { at < length self.now.members }
        ensures { result.now ≡ (member_at self.now at).log }
    {
        self.logs.feds.at(at).entries.as_slice()
    }

    pub fn into_logs(self) -> Logs
        ensures { result.feds ≡ map log_of self.members }
    {
        let Members {
            begun: _,
            clocks: _,
            logs,
        } = self;
        logs
    }

    fn begin_at(&mut self, at: usize)
        requires { at < length self.old.members }
        ensures { self.new ≡ with_member self.old at (begun_member (member_at self.old at)) self.old.items }
    {
        let clock = &mut self.clocks[at];
        let log = log_mut(&mut self.logs.feds, at);
        seat::begin(clock, log);
    }

    /// Each federate that is Created becomes Initializing.
    pub fn begin(&mut self)
        ensures { self.new ≡ record self.old { begun = true; members = map begun_member self.old.members } }
    {
        for at in 0..self.len() {
            self.begin_at(at);
        }
        self.begun = true;
    }

    pub fn enter(&mut self, at: usize)
        requires within { at < length self.old.members }
        requires may { enter_refusal (member_at self.old at).time ≡ None }
        ensures { self.new ≡ with_member self.old at (entered_member (member_at self.old at)) self.old.items }
    {
        let clock = &mut self.clocks[at];
        let log = log_mut(&mut self.logs.feds, at);
        seat::enter(clock, log);
    }

    /// A federate calls, and these items are under way. Without memory nothing changes.
    pub fn call(&mut self, source: u16, items: Vec<Item>) -> Result<(), OutOfMemory>
        requires within { source < length self.old.members }
        requires limits { limit_refusal (member_at self.old source) ≡ None }
        requires made { AreMade (length self.old.members) source (member_at self.old source).seq items.items }
        ensures ok { OnOk result (self.new ≡ with_member self.old source (called_member (member_at self.old source)) (insert_all items.items self.old.items)) }
        ensures err { OnErr result (self.new ≡ self.old) }
    {
        queues::call(&mut self.clocks, source, items)
    }

    pub fn request(&mut self, at: usize, time: u64, mode: Mode)
        requires within { at < length self.old.members }
        requires may { request_refusal (member_at self.old at).time ≡ None }
        requires fits { time ≤ max_time }
        ensures { self.new ≡ with_member self.old at (requested_member (member_at self.old at) time mode) self.old.items }
    {
        let clock = &mut self.clocks[at];
        let log = log_mut(&mut self.logs.feds, at);
        seat::request(clock, log, time, mode);
    }

    /// A federate gets its next stamp and what is due by the cut. Without memory nothing changes.
    pub fn grant(&mut self, at: usize) -> Result<(), OutOfMemory>
        requires within { at < length self.old.members }
        requires asks { is_asking (member_at self.old at).time.phase ≡ true }
        ensures ok { OnOk result (self.new ≡ with_member self.old at (granted_member (member_at self.old at) (dues_to self.old.items at) (handed_in self.old at)) (left_in self.old at)) }
        ensures err { OnErr result (self.new ≡ self.old) }
    {
        let clock = &mut self.clocks[at];
        let log = log_mut(&mut self.logs.feds, at);
        seat::grant(clock, log)
    }

    /// A federate ends otherwise than by failing.
    pub fn end(&mut self, at: usize, cause: Cause)
        requires within { at < length self.old.members }
        requires live { is_live (member_at self.old at).time.phase ≡ true }
        requires otherwise { cause ≢ Cause.Failed }
        ensures { self.new ≡ with_member self.old at (ended_member (member_at self.old at) cause) self.old.items }
    {
        let clock = &mut self.clocks[at];
        let log = log_mut(&mut self.logs.feds, at);
        seat::end(clock, log, cause);
    }

    pub fn fail(&mut self, at: usize, text: TextValue)
        requires within { at < length self.old.members }
        requires live { is_live (member_at self.old at).time.phase ≡ true }
        ensures { self.new ≡ with_member self.old at (failed_member (member_at self.old at) text) self.old.items }
    {
        let clock = &mut self.clocks[at];
        let log = log_mut(&mut self.logs.feds, at);
        seat::fail(clock, log, text);
    }

    // A federate that stands there is halted.
    fn halt_at(&mut self, at: usize, there: bool, fed: u16)
        requires { at < length self.old.members }
        ensures { self.new ≡ with_member self.old at (halted_if there fed (member_at self.old at)) self.old.items }
    {
        let clock = &mut self.clocks[at];
        let log = log_mut(&mut self.logs.feds, at);
        seat::halt(clock, log, there, fed);
    }

    /// Each federate that stands at a core and lives is halted by `fed`. The list has the core of each.
    pub fn halt(&mut self, cores: &[u16], core: u16, fed: u16)
        requires { length cores.now ≡ length self.old.members }
        ensures { self.new ≡ record self.old { members = halted_from (λ i. slice_index_or cores.now i 0) core fed 0 self.old.members } }
    {
        for at in 0..cores.len() {
            self.halt_at(at, cores[at] == core, fed);
        }
    }
}
