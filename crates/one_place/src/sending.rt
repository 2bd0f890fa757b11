// What calls of a federate send: docs/RULES.md, Items.
ghost use Rattle.std.specs.Prelude.{ℕ, ◌≡◌, ◌≤◌, ◌<◌, ◌^◌, ◌∷◌, [], None, Some, map, length, IfOk};
ghost use Rattle.std.specs.Option.{option_to_list};
ghost use Rattle.helics_time.specs.Stamp.{IsDue};
ghost use Rattle.due_queue.specs.declared.item.Content.{Content as Carried};
ghost use Rattle.federation_plan.specs.Interfaces.{IsEndpoint, IsPublication};
ghost use Rattle.federation_plan.specs.Wires.{delay_between, leg_to, endpoint_in, message_leg, send_objection, wires_of};
ghost use Rattle.message_filters.specs.declared.chain.Filtered.TheVariants.{Kept as KeptFor};
ghost use Rattle.machine_laws.specs.Machine.{limit_refusal};
ghost use Rattle.machine_laws.specs.Plan.{due_of, item_of, items_by};
ghost use Rattle.machine_laws.specs.Plan.Call.{publish, send};
ghost use Rattle.time_state.specs.Fed.{IsFed};
ghost use Rattle.one_place.specs.Members.{sender_of};

use crate::seat::Clock;
use due_queue::{Content, Item, Message};
use federation_plan::Plan;
use hel_lists::{Copied, OutOfMemory, Text};
use hel_values::{EndRef, Payload, Value};
use helics_time::Stamp;
use interface_names::FederateRecord;
use message_filters::Filtered;
use std::alloc::Global;

// How long what a federate sends to another is delayed by their settings, in nanoseconds.
fn delay_between(federates: &[FederateRecord], from: u16, to: u16) -> u64
    requires from { from < length federates.now }
    requires to { to < length federates.now }
    ensures value { result ≡ delay_between federates.now from to }
    ensures small { result ≤ 2 ^ 57 }
{
    let sender = &federates[usize::from(from)].settings;
    let receiver = &federates[usize::from(to)].settings;
    sender.output_delay + receiver.input_delay
}

impl Clock {
    // The due of what the federate of this clock and number sends to another.
    fn due_at(&self, fed: u16, target: u16, delay: u64) -> Stamp
        requires fed { IsFed self.now.time }
        requires limits { limit_refusal (sender_of self.now.time self.now.seq) ≡ None }
        requires soon { delay < 2 ^ 61 }
        ensures value { (content : ℕ → Carried) → result ≡ due_of self.now.time fed (record { target = target; delay = delay; content = content }) }
        ensures due { IsDue result }
    {
        if delay > 0 {
            Stamp {
                time: self.time.own().time + delay,
                micro: 0,
            }
        } else if target == fed {
            self.time.last_cut().next()
        } else {
            self.time.own().next()
        }
    }

    // The item of a publication to one of the inputs that target it.
    fn valued(
        &self,
        alloc: Global,
        federates: &[FederateRecord],
        publication: EndRef,
        value: &Value,
        input: EndRef,
    ) -> Result<Item, OutOfMemory>
        requires from { publication.fed < length federates.now }
        requires to { input.fed < length federates.now }
        requires fed { IsFed self.now.time }
        requires limits { limit_refusal (sender_of self.now.time self.now.seq) ≡ None }
        ensures { IfOk result (λ item. item ≡ item_of self.now.time publication.fed self.now.seq (leg_to federates.now publication value.now input)) }
    {
        let delay = delay_between(federates, publication.fed, input.fed);
        let due = self.due_at(publication.fed, input.fed, delay);
        Ok(Item {
            source: publication.fed,
            seq: self.seq,
            target: input.fed,
            due,
            content: Content::Value {
                input: input.index,
                publication,
                value: value.copy(alloc)?,
            },
        })
    }

    /// The items of a publication, one to each input that targets it.
    pub fn published(
        &self,
        alloc: Global,
        plan: &Plan,
        publication: EndRef,
        value: &Value,
    ) -> Result<Vec<Item>, OutOfMemory>
        requires known { publication.fed < length plan.now.federates }
        requires publication { IsPublication plan.now.federates publication }
        requires fed { IsFed self.now.time }
        requires limits { limit_refusal (sender_of self.now.time self.now.seq) ≡ None }
        ensures { IfOk result (λ items. items.items ≡ items_by (wires_of plan.now) self.now.time publication.fed self.now.seq (publish publication.index value.now)) }
    {
        let federates = plan.federates();
        let inputs = plan.targets(publication);
        let mut items = Vec::with_capacity(alloc, inputs.len())?;
        for input in inputs {
            items.push(self.valued(alloc, federates, publication, value, *input)?)?;
        }
        Ok(items)
    }

    // The item of a message to the endpoint at which the filters let it arrive, so much later.
    fn message(
        &self,
        federates: &[FederateRecord],
        from: EndRef,
        to: EndRef,
        payload: Payload,
        end: EndRef,
        later: u64,
    ) -> Item
        requires from { from.fed < length federates.now }
        requires end { end.fed < length federates.now }
        requires later { later ≤ 2 ^ 60 }
        requires fed { IsFed self.now.time }
        requires limits { limit_refusal (sender_of self.now.time self.now.seq) ≡ None }
        ensures { map (item_of self.now.time from.fed self.now.seq) (option_to_list (message_leg federates.now from to payload (KeptFor end later))) ≡ result ∷ [] }
    {
        let delay = delay_between(federates, from.fed, end.fed) + later;
        let due = self.due_at(from.fed, end.fed, delay);
        Item {
            source: from.fed,
            seq: self.seq,
            target: end.fed,
            due,
            content: Content::Message(Message {
                source: from,
                original_source: from,
                destination: end,
                original_destination: to,
                time: due.time,
                payload,
            }),
        }
    }

    /// The item of a message from an endpoint, where no filter drops it. An empty name stands for the
    /// endpoint's default destination.
    pub fn sent(
        &self,
        alloc: Global,
        plan: &Plan,
        from: EndRef,
        name: &Text,
        payload: Payload,
    ) -> Result<Vec<Item>, OutOfMemory>
        requires known { from.fed < length plan.now.federates }
        requires endpoint { IsEndpoint plan.now.federates from }
        requires may { send_objection plan.now.federates from (endpoint_in plan.now.federates from.fed from.index) name.now ≡ None }
        requires fed { IsFed self.now.time }
        requires limits { limit_refusal (sender_of self.now.time self.now.seq) ≡ None }
        ensures { IfOk result (λ items. items.items ≡ items_by (wires_of plan.now) self.now.time from.fed self.now.seq (send from.index name.now payload)) }
    {
        let mut items = Vec::new(alloc);
        let Some(to) = plan.destined(from, name.as_str()) else {
            unreachable!();
        };
        match plan.filtered(from, self.seq, to) {
            Filtered::Kept { dest, delay } => {
                items.push(self.message(plan.federates(), from, to, payload, dest, delay))?;
                Ok(items)
            }
            Filtered::Dropped { .. } => Ok(items),
        }
    }
}
