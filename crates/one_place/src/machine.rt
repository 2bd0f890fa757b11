ghost use Rattle.std.specs.Prelude.{◌≡◌, ◌≤◌, ◌<◌, Some, None, true, false, is_none, length, option_map, OnOk, OnErr, IfOk};
ghost use Rattle.helics_time.specs.Time.{max_time};
ghost use Rattle.helics_time.specs.Stamp.{before, next_of};
ghost use Rattle.time_state.specs.Fed.{request_refusal};
ghost use Rattle.machine_laws.specs.Refusal.{refusal_by_time};
ghost use Rattle.machine_laws.specs.Machine.{KeepsTime, member_at, event_in, cut_in, opening, logs_of, holder_in, end_refusal, if_refused};
ghost use Rattle.dependency_paths.specs.Paths.{row_of};
ghost use Rattle.federation_plan.specs.Plan.{IsFederation};
ghost use Rattle.federation_plan.specs.Tree.{kind_at};
ghost use Rattle.federation_plan.specs.Wires.{is_core_kind, wires_of};
ghost use Rattle.one_place.specs.Step.{step_of};
ghost use Rattle.one_place.specs.Machine.{refusal_at, stage_after, MayWant, Steps};

use crate::members::Members;
use crate::{LogEntry, Logs, MachineStep, Plan, Unlawful, refusal};
use fed_script::EndpointNames;
use federation_plan::{NodeKind, Tree, endpoint_name};
use hel_lists::{OutOfMemory, Text};
use hel_values::{EndRef, Payload, TextValue, Value};
use helics_time::Stamp;
use iteration_rules::Mode;
use std::alloc::Global;
use std::marker::Model;
use time_state::{Cause, Phase};

/// The machine in one place: all federates of a plan at one look. Its steps are made by `step`, which
/// refuses what isn't lawful: docs/RULES.md, Steps.
#[derive(Debug, Drop)]
pub struct Machine {
    alloc: Global,
    plan: Plan,
    members: Members,
}

impl Model for Machine {
    ghost use Rattle.one_place.specs.Machine.{Stage, IsStage};

    ghost Value = { Stage };

    ghost view = { λ m. record { plan = m.plan; state = m.members } };

    ghost invariant = { λ m. IsStage (record { plan = m.plan; state = m.members }) };
}

// Whether what a federate sends to another from this event on is due past the cut.
fn sends_past(cut: &Stamp, event: Stamp) -> bool
    ensures { result ≡ before cut.now (next_of event) }
{
    *cut < event.next()
}

// The place of a federate among others.
fn place_of(federates: &[u16], f: u16) -> usize {
    federates.binary_search(&f).unwrap_or(0)
}

// Whether this is the number of a core.
#[tactic(auto, using(crate::proofs::Halting::no_core))]
fn is_core(tree: &Tree, number: u16) -> bool
    ensures { result ≡ is_core_kind (kind_at tree.now.nodes number) }
{
    let at = usize::from(number);
    if at >= tree.nodes.len() {
        return false;
    }
    tree.nodes.at(at).kind == NodeKind::Core
}

impl Machine {
    /// The machine before the beginning: every federate is Created.
    pub fn open(alloc: Global, plan: Plan) -> Result<Machine, OutOfMemory>
        ensures { IfOk result (λ machine. machine ≡ record { plan = plan; state = opening (wires_of plan) }) }
    {
        let members = Members::new(alloc, plan.federates())?;
        Ok(Machine {
            alloc,
            plan,
            members,
        })
    }

    /// What each federate was granted, and how it stands.
    pub fn logs(&self) -> &Logs
        ensures { result.now.feds ≡ logs_of self.now.state }
    {
        self.members.logs()
    }

    /// Gives up the machine for its logs.
    pub(crate) fn into_logs(self) -> Logs
        ensures { result.feds ≡ logs_of self.state }
    {
        let Machine {
            alloc: _,
            plan: _,
            members,
        } = self;
        members.into_logs()
    }

    /// Gives up the machine for its plan and its logs.
    pub(crate) fn into_parts(self) -> (Plan, Logs)
        ensures plan { result.0 ≡ self.plan }
        ensures logs { result.1.feds ≡ logs_of self.state }
    {
        let Machine {
            alloc: _,
            plan,
            members,
        } = self;
        (plan, members.into_logs())
    }

    /// The number of federates.
    pub fn count(&self) -> usize
        ensures { result ≡ length self.now.state.members }
    {
        self.members.len()
    }

    /// The phase of a federate, and `Created` where the plan has none of this number.
    pub fn phase(&self, f: u16) -> Phase
        ensures { result ≡ (member_at self.now.state f).time.phase }
    {
        match self.members.time(f) {
            Some(time) => time.phase(),
            None => Phase::Created,
        }
    }

    /// What a federate was granted so far.
    pub(crate) fn entries(&self, f: u16) -> &[LogEntry]
        requires { f < length self.now.state.members }
        ensures { result.now ≡ (member_at self.now.state f).log }
    {
        self.members.entries(usize::from(f))
    }

    /// Makes a step where it is lawful, and else names the first condition that fails, in the order of
    /// `Unlawful`. A refused step changes nothing, and memory is wanted for a lawful step alone.
    pub fn step(&mut self, step: MachineStep) -> Result<(), Unlawful>
        requires { KeepsTime (step_of step) }
        ensures steps { Steps self.old step result self.new }
        ensures memory { result ≡ Err Unlawful.OutOfMemory → MayWant (step_of step) }
    {
        if let Some(refusal) = self.refusal(&step) {
            return Err(refusal);
        }
        self.apply(step)?;
        Ok(())
    }

    /// Why a step isn't lawful: the first condition that fails.
    pub fn refusal(&self, step: &MachineStep) -> Option<Unlawful>
        ensures { result ≡ refusal_at self.now step.now }
    {
        match step {
            MachineStep::Begin => self.begin_refusal(),
            MachineStep::Enter(f) => self.enter_refusal(*f),
            MachineStep::Publish {
                fed,
                publication,
                value,
            } => self.publish_refusal(*fed, *publication, value),
            MachineStep::Send {
                fed,
                endpoint,
                dest,
                payload,
            } => self.send_refusal(*fed, *endpoint, dest, payload),
            MachineStep::Request { fed, .. } => self.request_refusal(*fed),
            MachineStep::Grant(f) => self.grant_refusal(*f),
            MachineStep::Finish(f) => self.finish_refusal(*f),
            MachineStep::Fail { fed, .. } => self.end_refusal(*fed),
            MachineStep::Die(f) => self.end_refusal(*f),
            MachineStep::Halt { core, fed } => self.halt_refusal(*core, *fed),
        }
    }

    /// Makes a lawful step. The machine is unchanged where memory is wanting.
    pub(crate) fn apply(&mut self, step: MachineStep) -> Result<(), OutOfMemory>
        requires lawful { refusal_at self.old step ≡ None }
        requires times { KeepsTime (step_of step) }
        ensures ok { OnOk result (self.new ≡ stage_after self.old step) }
        ensures err { OnErr result (self.new ≡ self.old) }
        ensures memory { OnErr result (MayWant (step_of step)) }
    {
        match step {
            MachineStep::Begin => self.begin(),
            MachineStep::Enter(f) => self.enter(f),
            MachineStep::Publish {
                fed,
                publication,
                value,
            } => self.publish(fed, publication, &value)?,
            MachineStep::Send {
                fed,
                endpoint,
                dest,
                payload,
            } => self.send(fed, endpoint, dest, payload)?,
            MachineStep::Request { fed, time, mode } => self.request(fed, time, mode),
            MachineStep::Grant(f) => self.grant(f)?,
            MachineStep::Finish(f) => self.finish(f),
            MachineStep::Fail { fed, text } => self.fail(fed, text),
            MachineStep::Die(f) => self.die(f),
            MachineStep::Halt { core, fed } => self.halt(core, fed),
        }
        Ok(())
    }
}

// Each kind of step: why it is refused, and what it does.
impl Machine {
    fn begin_refusal(&self) -> Option<Unlawful>
        ensures { result ≡ refusal_at self.now MachineStep.Begin }
    {
        if self.members.begun() {
            Some(Unlawful::BegunTwice)
        } else {
            None
        }
    }

    fn begin(&mut self)
        ensures { self.new ≡ stage_after self.old MachineStep.Begin }
    {
        self.members.begin();
    }

    fn enter_refusal(&self, f: u16) -> Option<Unlawful>
        ensures { result ≡ refusal_at self.now (MachineStep.Enter f) }
    {
        match self.members.time(f) {
            Some(time) => refusal::enter_refusal(time).map(Unlawful::Refused),
            None => Some(Unlawful::StrangeNumber),
        }
    }

    fn enter(&mut self, f: u16)
        requires { refusal_at self.old (MachineStep.Enter f) ≡ None }
        ensures { self.new ≡ stage_after self.old (MachineStep.Enter f) }
    {
        self.members.enter(usize::from(f));
    }

    fn publish_refusal(&self, f: u16, publication: u16, value: &Value) -> Option<Unlawful>
        ensures { result ≡ refusal_at self.now (MachineStep.Publish f publication value.now) }
    {
        match self.members.time(f) {
            Some(time) => {
                let index = publication;
                let objection = self.plan.publish_objection(EndRef { fed: f, index }, value);
                refusal::make_refusal(time, objection, self.members.seq(f)).map(Unlawful::Refused)
            }
            None => Some(Unlawful::StrangeNumber),
        }
    }

    // Without memory for all its items a publish changes nothing.
    fn publish(&mut self, f: u16, publication: u16, value: &Value) -> Result<(), OutOfMemory>
        requires { refusal_at self.old (MachineStep.Publish f publication value.now) ≡ None }
        ensures ok { OnOk result (self.new ≡ stage_after self.old (MachineStep.Publish f publication value.now)) }
        ensures err { OnErr result (self.new ≡ self.old) }
    {
        let publication = EndRef {
            fed: f,
            index: publication,
        };
        let caller = self.members.caller(usize::from(f));
        let items = caller.published(self.alloc, &self.plan, publication, value)?;
        self.members.call(f, items)
    }

    fn send_refusal(
        &self,
        f: u16,
        endpoint: u16,
        dest: &Text,
        payload: &Payload,
    ) -> Option<Unlawful>
        ensures { result ≡ refusal_at self.now (MachineStep.Send f endpoint dest.now payload.now) }
    {
        match self.members.time(f) {
            Some(time) => {
                let index = endpoint;
                let objection = self
                    .plan
                    .send_objection(EndRef { fed: f, index }, dest.as_str());
                refusal::make_refusal(time, objection, self.members.seq(f)).map(Unlawful::Refused)
            }
            None => Some(Unlawful::StrangeNumber),
        }
    }

    // Without memory for its item a send changes nothing.
    fn send(
        &mut self,
        f: u16,
        endpoint: u16,
        dest: Text,
        payload: Payload,
    ) -> Result<(), OutOfMemory>
        requires { refusal_at self.old (MachineStep.Send f endpoint dest payload) ≡ None }
        ensures ok { OnOk result (self.new ≡ stage_after self.old (MachineStep.Send f endpoint dest payload)) }
        ensures err { OnErr result (self.new ≡ self.old) }
    {
        let from = EndRef {
            fed: f,
            index: endpoint,
        };
        let caller = self.members.caller(usize::from(f));
        let items = caller.sent(self.alloc, &self.plan, from, &dest, payload)?;
        self.members.call(f, items)
    }

    fn request_refusal(&self, f: u16) -> Option<Unlawful>
        ensures { result ≡ if_refused self.now.state f (option_map refusal_by_time (request_refusal (member_at self.now.state f).time)) }
    {
        match self.members.time(f) {
            Some(time) => refusal::request_refusal(time).map(Unlawful::Refused),
            None => Some(Unlawful::StrangeNumber),
        }
    }

    fn request(&mut self, f: u16, time: u64, mode: Mode)
        requires lawful { refusal_at self.old (MachineStep.Request f time mode) ≡ None }
        requires fits { time ≤ max_time }
        ensures { self.new ≡ stage_after self.old (MachineStep.Request f time mode) }
    {
        self.members.request(usize::from(f), time, mode);
    }

    fn grant_refusal(&self, f: u16) -> Option<Unlawful>
        ensures { result ≡ refusal_at self.now (MachineStep.Grant f) }
    {
        match self.members.time(f) {
            Some(time) => match time.phase() {
                Phase::Entering | Phase::Waiting => self.holder(f),
                _ => Some(Unlawful::NotAsked),
            },
            None => Some(Unlawful::StrangeNumber),
        }
    }

    // The least ancestor that could still send what is due by a federate's cut.
    fn holder(&self, f: u16) -> Option<Unlawful>
        requires { f < length self.now.state.members }
        ensures { result ≡ holder_in (wires_of self.now.plan) self.now.state (cut_in self.now.state f) (row_of self.now.plan.ancestors f) }
    {
        let cut = self.members.cut(f);
        for ancestor in self.plan.ancestors(f) {
            let stamp = self.members.event(*ancestor);
            if !sends_past(&cut, stamp) {
                return Some(Unlawful::Early {
                    holder: *ancestor,
                    stamp,
                });
            }
        }
        None
    }

    // Whether the ancestor at a place could still send what is due by a federate's cut.
    fn is_held_at(&self, f: u16, place: usize) -> bool
        requires { f < length self.now.state.members }
        ensures { result ≡ true → is_none (holder_in (wires_of self.now.plan) self.now.state (cut_in self.now.state f) (row_of self.now.plan.ancestors f)) ≡ false }
    {
        let ancestors = self.plan.ancestors(f);
        if place >= ancestors.len() {
            return false;
        }
        !sends_past(&self.members.cut(f), self.members.event(ancestors[place]))
    }

    /// Whether a federate may be granted. The ancestor at the place `hint` is looked at first, and where
    /// another holds the grant that one's place is the new hint: most often it holds the next one too.
    pub(crate) fn may_grant(&self, f: u16, hint: &mut usize) -> bool
        ensures { result ≡ is_none (refusal_at self.now (MachineStep.Grant f)) }
    {
        let Some(time) = self.members.time(f) else {
            return false;
        };
        if !matches!(time.phase(), Phase::Entering | Phase::Waiting) || self.is_held_at(f, *hint) {
            return false;
        }
        match self.holder(f) {
            None => true,
            Some(Unlawful::Early { holder, .. }) => {
                *hint = place_of(self.plan.ancestors(f), holder);
                false
            }
            Some(_) => false,
        }
    }

    fn grant(&mut self, f: u16) -> Result<(), OutOfMemory>
        requires { refusal_at self.old (MachineStep.Grant f) ≡ None }
        ensures ok { OnOk result (self.new ≡ stage_after self.old (MachineStep.Grant f)) }
        ensures err { OnErr result (self.new ≡ self.old) }
    {
        self.members.grant(usize::from(f))
    }

    fn finish_refusal(&self, f: u16) -> Option<Unlawful>
        ensures { result ≡ refusal_at self.now (MachineStep.Finish f) }
    {
        match self.members.time(f) {
            Some(time) => refusal::finish_refusal(time).map(Unlawful::Refused),
            None => Some(Unlawful::StrangeNumber),
        }
    }

    fn finish(&mut self, f: u16)
        requires { refusal_at self.old (MachineStep.Finish f) ≡ None }
        ensures { self.new ≡ stage_after self.old (MachineStep.Finish f) }
    {
        self.members.end(usize::from(f), Cause::Finished);
    }

    // A failure and a death are refused alike.
    fn end_refusal(&self, f: u16) -> Option<Unlawful>
        ensures { result ≡ if_refused self.now.state f (end_refusal (member_at self.now.state f).time.phase) }
    {
        match self.members.time(f) {
            Some(time) => refusal::end_refusal(time).map(Unlawful::Refused),
            None => Some(Unlawful::StrangeNumber),
        }
    }

    fn fail(&mut self, f: u16, text: TextValue)
        requires { refusal_at self.old (MachineStep.Fail f text) ≡ None }
        ensures { self.new ≡ stage_after self.old (MachineStep.Fail f text) }
    {
        self.members.fail(usize::from(f), text);
    }

    fn die(&mut self, f: u16)
        requires { refusal_at self.old (MachineStep.Die f) ≡ None }
        ensures { self.new ≡ stage_after self.old (MachineStep.Die f) }
    {
        self.members.end(usize::from(f), Cause::Died);
    }

    fn halt_refusal(&self, core: u16, f: u16) -> Option<Unlawful>
        ensures { result ≡ refusal_at self.now (MachineStep.Halt core f) }
    {
        if !is_core(self.plan.tree(), core) {
            return Some(Unlawful::StrangeNumber);
        }
        match self.members.time(f) {
            Some(time) => refusal::halt_refusal(time),
            None => Some(Unlawful::StrangeNumber),
        }
    }

    // The federates that stand at the core are halted.
    #[tactic(auto, using(crate::proofs::Halting::halted_is, crate::proofs::Halting::halted_length))]
    fn halt(&mut self, core: u16, f: u16)
        requires { refusal_at self.old (MachineStep.Halt core f) ≡ None }
        ensures { self.new ≡ stage_after self.old (MachineStep.Halt core f) }
    {
        let cores = self.plan.tree().cores.as_slice();
        self.members.halt(cores, core, f);
    }
}

impl EndpointNames for Machine {
    ghost use Rattle.one_place.specs.Reference.{names_in};

    ghost name_of = { λ machine e. names_in machine.plan e };

    fn name(&self, alloc: Global, endpoint: EndRef) -> Result<Text, OutOfMemory> {
        endpoint_name(alloc, self.plan.federates(), endpoint)
    }
}
