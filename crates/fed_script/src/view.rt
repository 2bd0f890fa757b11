ghost use Rattle.std.specs.Prelude.{◌≡◌, ◌+◌, min, [], drop, replicate, slice_get, IfOk, OnOk, OnErr};
ghost use Rattle.std.specs.Option.{option_copied};
ghost use Rattle.helics_time.specs.Time.{max_time};
ghost use Rattle.value_updates.specs.Input.{opening};
ghost use Rattle.fed_script.specs.View.{integer_of, integer_at, letters_at, taken, granted};

use crate::arrivals::{
    apply_all, clear_marks, copied_values, deliver_all, make_room, new_inboxes, new_inputs,
    written_letters,
};
use crate::names::EndpointNames;
use due_queue::Item;
use endpoint_messages::{Inbox, Letter};
use hel_lists::{Items, OutOfMemory};
use hel_values::Value;
use helics_time::MAX;
use std::alloc::Global;
use std::marker::Model;
use value_updates::InputState;

/// What a federate sees: the time of its last grant, in nanoseconds, its inputs, and the letters of
/// its endpoints. Contracts don't see for how many letters there is room (docs/RULES.md, Scripts).
#[derive(Debug, Drop)]
pub struct View {
    pub time: u64,
    pub inputs: Items<InputState>,
    pub inboxes: Items<Inbox>,
}

impl Model for View {
    ghost use Rattle.std.specs.Prelude.{map};
    ghost use Rattle.endpoint_messages.specs.Mail.{Mail};
    ghost use Rattle.fed_script.specs.View.{Sight};

    ghost Value = { Sight };

    ghost view = { λ v. record { time = v.time; inputs = v.inputs; inboxes = map (λ (m : Mail). m.letters) v.inboxes } };
}

impl View {
    /// The view of a federate with so many inputs and endpoints before its first grant.
    pub fn new(alloc: Global, inputs: u16, endpoints: u16) -> Result<View, OutOfMemory>
        ensures { IfOk result (λ view. view ≡ record { time = 0; inputs = replicate inputs opening; inboxes = replicate endpoints [] }) }
    {
        Ok(View {
            time: 0,
            inputs: new_inputs(alloc, inputs)?,
            inboxes: new_inboxes(alloc, endpoints)?,
        })
    }

    /// Takes over a grant at this time: the marks of the inputs are cleared, and then the items that
    /// it hands over arrive in order, messages as letters.
    pub fn take_over<N: EndpointNames>(
        &mut self,
        alloc: Global,
        names: &N,
        time: u64,
        items: &[Item],
    ) -> Result<(), OutOfMemory>
        ensures ok { OnOk result (self.new ≡ granted (N.name_of names.now) self.old time items.now) }
        ensures err { OnErr result (self.new ≡ self.old) }
    {
        let values = copied_values(alloc, items)?;
        let letters = written_letters(alloc, names, items)?;
        make_room(&mut self.inboxes, letters.as_slice())?;
        self.time = time;
        clear_marks(&mut self.inputs);
        apply_all(&mut self.inputs, values);
        deliver_all(&mut self.inboxes, letters);
        Ok(())
    }

    /// The integer that an input holds, and 0 where it holds none or isn't there.
    pub(crate) fn integer(&self, input: u16) -> i64
        ensures { result ≡ integer_at self.now input }
    {
        self.inputs.get(usize::from(input)).map_or(0, integer_in)
    }

    /// The time that is so much after the present one, and at most MAX.
    pub(crate) fn later(&self, by: u64) -> u64
        ensures { result ≡ min (self.now.time + by) max_time }
    {
        self.time.saturating_add(by).min(MAX)
    }

    /// The oldest letter of an endpoint, if there is one.
    pub(crate) fn oldest(&self, endpoint: u16) -> Option<&Letter>
        ensures { option_copied result ≡ slice_get (letters_at self.now endpoint) 0 }
    {
        match self.inboxes.get(usize::from(endpoint)) {
            None => None,
            Some(inbox) => inbox.first(),
        }
    }

    /// Takes the oldest letter of an endpoint, if there is one.
    pub(crate) fn take_letter(&mut self, endpoint: u16)
        ensures { self.new ≡ taken self.old endpoint }
    {
        let place = usize::from(endpoint);
        if place < self.inboxes.len() {
            take_oldest(self.inboxes.at_mut(place));
        }
    }
}

// The integer that an input holds, and 0 where it holds none.
fn integer_in(input: &InputState) -> i64
    ensures { result ≡ integer_of input.now.value }
{
    match input.value() {
        Some(Value::Int(number)) => *number,
        _ => 0,
    }
}

fn take_oldest(inbox: &mut Inbox)
    ensures { inbox.new.letters ≡ drop 1 inbox.old.letters }
{
    let _ = inbox.take();
}
