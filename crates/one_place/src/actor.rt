// A scripted federate: what is left of its script, and what it sees.
ghost use Rattle.interface_names.specs.Federate.{interface_count};
ghost use Rattle.interface_names.specs.Limits.{most_interfaces};
ghost use Rattle.std.specs.Prelude.{◌≡◌, ◌≤◌, ℕ, List, [], zero, length, true, IfOk, OnOk};
ghost use Rattle.hel_values.specs.declared.EndRef.{EndRef};
ghost use Rattle.fed_script.specs.Script.{IsCourse, HasTime};
ghost use Rattle.machine_laws.specs.Machine.{KeepsTime};
ghost use Rattle.machine_laws.specs.Moves.{step_by, is_calling};
ghost use Rattle.federation_plan.specs.Interfaces.{AreFew};
ghost use Rattle.one_place.specs.Reference.{doing_of, first_sight, taken_over};
ghost use Rattle.one_place.specs.Run.{going, passed, first_actors};
ghost use Rattle.one_place.specs.Work.{is_answering};
ghost use Rattle.one_place.specs.Step.{step_of};

use crate::MachineStep;
use fed_script::{Action, EndpointNames, Script, View};
use hel_lists::{Items, OutOfMemory};
use interface_names::FederateRecord;
use machine_laws::LogEntry;
use std::alloc::Global;
use time_state::Phase;

#[derive(Debug, Drop)]
pub struct Actor {
    pub script: Script,
    pub view: View,
}

/// One actor for each federate, with its whole script before it.
pub fn actors_of(
    alloc: Global,
    federates: &[FederateRecord],
    scripts: Items<Script>,
) -> Result<Vec<Actor>, OutOfMemory>
    requires federates { AreFew federates.now }
    requires each { length scripts ≡ length federates.now }
    ensures { IfOk result (λ actors. actors.items ≡ first_actors federates.now scripts) }
{
    let mut actors = Vec::with_capacity(alloc, federates.len())?;
    for script in scripts.into_vec() {
        let federate = &federates[actors.len()];
        let view = first_view(alloc, federate)?;
        actors.push(Actor { script, view })?;
    }
    Ok(actors)
}

// What a federate sees before its first grant.
fn first_view(alloc: Global, federate: &FederateRecord) -> Result<View, OutOfMemory>
    requires { interface_count federate.now ≤ most_interfaces }
    ensures { IfOk result (λ view. view ≡ first_sight federate.now) }
{
    let inputs = federate.inputs.len() as u16;
    View::new(alloc, inputs, federate.endpoints.len() as u16)
}

// The step by which a federate takes an action.
fn step_for(f: u16, action: Action) -> MachineStep
    requires { HasTime action }
    ensures step { step_of result ≡ step_by f (doing_of action) }
    ensures time { KeepsTime (step_of result) }
{
    let fed = f;
    match action {
        Action::Publish { publication, value } => MachineStep::Publish {
            fed,
            publication,
            value,
        },
        Action::Send {
            endpoint,
            destination,
            payload,
        } => MachineStep::Send {
            fed,
            endpoint,
            dest: destination,
            payload,
        },
        Action::Request { time, mode } => MachineStep::Request { fed, time, mode },
        Action::Finish => MachineStep::Finish(fed),
        Action::Fail(text) => MachineStep::Fail { fed, text },
    }
}

impl Actor {
    /// The step of its next call, in the phase in which it stands.
    pub fn next(&self, alloc: Global, f: u16, phase: Phase) -> Result<MachineStep, OutOfMemory>
        requires calls { is_calling phase ≡ true }
        requires rules { IsCourse self.now.script }
        ensures step { IfOk result (λ step. (names : EndRef → List ℕ) → step_of step ≡ step_by f (going names phase self.now [] zero)) }
        ensures time { IfOk result (λ step. KeepsTime (step_of step)) }
    {
        match phase {
            Phase::Running => Ok(step_for(f, self.script.next(alloc, &self.view)?)),
            _ => match self.script.initial(alloc)? {
                Some(action) => Ok(step_for(f, action)),
                None => Ok(MachineStep::Enter(f)),
            },
        }
    }

    /// Whether that call answers a letter.
    pub fn is_answering(&self, phase: Phase) -> bool
        ensures { result ≡ is_answering phase self.now }
    {
        phase == Phase::Running && self.script.answers(&self.view)
    }

    /// Passes that call.
    pub fn pass(&mut self, phase: Phase)
        requires { is_calling phase ≡ true }
        ensures { self.new ≡ passed phase self.old }
    {
        if phase == Phase::Running {
            self.script.advance(&mut self.view);
        } else {
            self.script.advance_initial();
        }
    }

    /// Takes over what a grant shows.
    pub fn take_over<N: EndpointNames>(
        &mut self,
        alloc: Global,
        names: &N,
        entry: &LogEntry,
    ) -> Result<(), OutOfMemory>
        ensures ok { OnOk result (self.new ≡ record self.old { view = taken_over (N.name_of names.now) self.old.view entry.now }) }
    {
        let items = entry.items.as_slice();
        self.view.take_over(alloc, names, entry.grant.time, items)
    }
}
