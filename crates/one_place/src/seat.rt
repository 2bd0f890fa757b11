// One federate of the machine: its clock with its queue, and its log, which change together.
ghost use Rattle.std.specs.Prelude.{◌≡◌, ◌≢◌, ◌≤◌, ◌++◌, ◌∷◌, [], None, OnOk, OnErr, true, not};
ghost use Rattle.std.specs.List.{filter};
ghost use Rattle.hel_lists.specs.Members.{Each};
ghost use Rattle.helics_time.specs.Stamp.{IsDue};
ghost use Rattle.helics_time.specs.Time.{max_time};
ghost use Rattle.due_queue.specs.Item.{is_due};
ghost use Rattle.due_queue.specs.Order.{enqueue};
ghost use Rattle.time_state.specs.Fed.{IsFed, event_of, cut_of, enter_refusal, request_refusal, is_asking, is_live};
ghost use Rattle.machine_laws.specs.Machine.{begun_member, entered_member, requested_member, granted_member, ended_member, failed_member, halted_if};
ghost use Rattle.one_place.specs.Members.{dues_of, member_of, new_clock, IsSeat, IsSeatOf, with_queue, taken_back};

use due_queue::{DueQueue, Item};
use hel_lists::OutOfMemory;
use hel_values::TextValue;
use helics_time::{Settings, Stamp};
use iteration_rules::Mode;
use machine_laws::{FedLog, LogEnd, LogEntry};
use std::alloc::Global;
use time_state::{Cause, FedTime, Phase};

/// What changes often of a federate: its time, its next sequence number, the items under way to it,
/// and the stamp at which it acts next.
#[derive(Debug, Drop)]
pub struct Clock {
    pub time: FedTime,
    pub seq: u64,
    pub queue: DueQueue,
    pub event: Stamp,
}

impl Clock {
    /// A federate that is Created.
    pub fn new(alloc: Global, settings: Settings) -> Clock
        ensures { result ≡ new_clock settings }
    {
        Clock {
            time: FedTime::new(settings),
            seq: 0,
            queue: DueQueue::new(alloc),
            event: Stamp { time: 0, micro: 0 },
        }
    }

    // Finds the stamp at which it acts next.
    fn refresh(&mut self)
        requires { IsFed self.old.time }
        ensures event { self.new ≡ with_queue self.old self.old.queue }
        ensures dues { Each (λ i. IsDue i.due) self.new.queue }
    {
        self.event = event_over(&self.time, &self.queue);
    }

    /// Puts an item into its queue.
    pub fn put(&mut self, item: Item) -> Result<(), OutOfMemory>
        requires { IsFed self.old.time }
        ensures ok { OnOk result (self.new ≡ with_queue self.old (enqueue item self.old.queue)) }
        ensures dues { OnOk result (Each (λ i. IsDue i.due) self.new.queue) }
        ensures err { OnErr result (self.new ≡ self.old) }
    {
        match self.queue.put(item) {
            Ok(()) => {
                self.refresh();
                Ok(())
            }
            Err(_) => Err(OutOfMemory),
        }
    }

    /// Takes the items of one call out of its queue.
    pub fn take_back(&mut self, source: u16, seq: u64)
        requires { IsFed self.old.time }
        ensures { self.new ≡ taken_back source seq self.old }
    {
        let _ = self.queue.take_back(source, seq);
        self.refresh();
    }
}

// The stamp at which a federate acts next: of the items in its queue the least due decides.
#[tactic(auto, using(crate::proofs::Events::first_decides))]
fn event_over(time: &FedTime, queue: &DueQueue) -> Stamp
    requires { IsFed time.now }
    ensures event { result ≡ event_of time.now (dues_of queue.now) }
    ensures dues { Each (λ i. IsDue i.due) queue.now }
{
    time.event(queue.least())
}

// Takes what is due by the cut out of a queue.
fn drop_due(queue: &mut DueQueue, cut: Stamp)
    ensures { queue.new ≡ filter (λ i. not (is_due cut i)) queue.old }
{
    while let Some(_) = queue.take_due(cut) {}
}

/// A federate that is Created becomes Initializing.
pub fn begin(clock: &mut Clock, log: &mut FedLog)
    requires { IsSeat clock.old log.old }
    ensures { IsSeatOf clock.new log.new (begun_member (member_of clock.old log.old)) clock.old.queue }
{
    if clock.time.phase() == Phase::Created {
        clock.time.begin();
        log.end = LogEnd::Open(Phase::Initializing);
        clock.refresh();
    }
}

/// A federate asks to enter the executing mode.
pub fn enter(clock: &mut Clock, log: &mut FedLog)
    requires seat { IsSeat clock.old log.old }
    requires may { enter_refusal clock.old.time ≡ None }
    ensures { IsSeatOf clock.new log.new (entered_member (member_of clock.old log.old)) clock.old.queue }
{
    let _ = clock.time.enter();
    log.end = LogEnd::Open(Phase::Entering);
    clock.refresh();
}

/// A federate asks for a time.
pub fn request(clock: &mut Clock, log: &mut FedLog, time: u64, mode: Mode)
    requires seat { IsSeat clock.old log.old }
    requires may { request_refusal clock.old.time ≡ None }
    requires fits { time ≤ max_time }
    ensures { IsSeatOf clock.new log.new (requested_member (member_of clock.old log.old) time mode) clock.old.queue }
{
    let _ = clock.time.request(time, mode);
    log.end = LogEnd::Open(Phase::Waiting);
    clock.refresh();
}

/// A federate gets its next stamp, and is handed over what is due by the cut. Copies for the log come
/// first: without memory for them nothing changes.
pub fn grant(clock: &mut Clock, log: &mut FedLog) -> Result<(), OutOfMemory>
    requires seat { IsSeat clock.old log.old }
    requires asks { is_asking clock.old.time.phase ≡ true }
    ensures ok { OnOk result (
        let dues = dues_of clock.old.queue in
        let cut = cut_of clock.old.time dues in
        IsSeatOf clock.new log.new (granted_member (member_of clock.old log.old) dues (filter (is_due cut) clock.old.queue))
        (filter (λ i. not (is_due cut i)) clock.old.queue)) }
    ensures same_clock { OnErr result (clock.new ≡ clock.old) }
    ensures same_log { OnErr result (log.new ≡ log.old) }
{
    let stamp = clock.event;
    let cut = clock.time.cut_at(stamp);
    let items = clock.queue.due_copies(cut)?;
    log.entries.push(LogEntry {
        grant: clock.time.next_grant_at(stamp),
        items,
    })?;
    clock.time.grant_at(stamp);
    drop_due(&mut clock.queue, cut);
    log.end = LogEnd::Open(Phase::Running);
    Ok(())
}

/// A federate ends otherwise than by failing.
pub fn end(clock: &mut Clock, log: &mut FedLog, cause: Cause)
    requires seat { IsSeat clock.old log.old }
    requires live { is_live clock.old.time.phase ≡ true }
    requires otherwise { cause ≢ Cause.Failed }
    ensures { IsSeatOf clock.new log.new (ended_member (member_of clock.old log.old) cause) clock.old.queue }
{
    clock.time.end(cause, None);
    log.end = LogEnd::Ended(cause);
    clock.refresh();
}

/// A federate fails, and its log tells this text.
pub fn fail(clock: &mut Clock, log: &mut FedLog, text: TextValue)
    requires seat { IsSeat clock.old log.old }
    requires live { is_live clock.old.time.phase ≡ true }
    ensures { IsSeatOf clock.new log.new (failed_member (member_of clock.old log.old) text) clock.old.queue }
{
    clock.time.end(Cause::Failed, None);
    log.end = LogEnd::FailedText(text);
    clock.refresh();
}

/// A federate that stands there and lives is halted by `fed`.
pub fn halt(clock: &mut Clock, log: &mut FedLog, there: bool, fed: u16)
    requires { IsSeat clock.old log.old }
    ensures { IsSeatOf clock.new log.new (halted_if there fed (member_of clock.old log.old)) clock.old.queue }
{
    if there && !matches!(clock.time.phase(), Phase::Ended(_)) {
        end(clock, log, Cause::Halted { fed });
    }
}
