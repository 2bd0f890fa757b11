ghost use Rattle.std.specs.Prelude.{◌≡◌, ◌≤◌, ◌↔◌, true, false, List, [], length, filter, count_by, insert, take, IsTrue, IsNone, IsOk, IfOk, IfErr, IfSome, OnOk, OnErr, option_copied};
ghost use Rattle.hel_lists.specs.Members.{IsIn, Each};
ghost use Rattle.std.specs.Option.{ForSome};
ghost use Rattle.helics_time.specs.Stamp.{IsDue, at_most};
ghost use Rattle.due_queue.specs.Item.{Parcel, is_due, is_made_by};
ghost use Rattle.due_queue.specs.Order.{InDueOrder, enqueue};
ghost use Rattle.due_queue.specs.Queue.{IsPutIn, TakesDue, first_due, is_first_due, is_made_otherwise};

use crate::Item;
use hel_lists::{Copied, Items, OutOfMemory};
use helics_time::Stamp;
use std::alloc::Global;
use std::collections::VecDeque;
use std::marker::Model;

/// The items under way to a federate, the one that is due first in front: contracts see the list
/// of them. They are in order of due, source, sequence number and interface, and equals in order
/// of coming (docs/RULES.md, Items).
#[derive(Debug, Drop)]
pub struct DueQueue {
    items: VecDeque<Item>,
}

impl Model for DueQueue {
    ghost use Rattle.std.specs.Prelude.{List};
    ghost use Rattle.due_queue.specs.Item.{Parcel};
    ghost use Rattle.due_queue.specs.Queue.{IsQueue};

    ghost Value = { List Parcel };

    ghost view = { λ q. q.items.items };

    ghost invariant = { λ q. IsQueue q.items.items };
}

impl DueQueue {
    /// An empty queue.
    pub fn new(alloc: Global) -> DueQueue
        ensures { result ≡ [] }
    {
        DueQueue {
            items: VecDeque::new(alloc),
        }
    }

    /// Puts an item behind all items of equal or lower order, and hands it back for want of
    /// memory alone.
    pub fn put(&mut self, item: Item) -> Result<(), Item>
        ensures ok { OnOk result (self.new ≡ enqueue item self.old) }
        ensures place { OnOk result (IsPutIn item self.old self.new) }
        ensures handed_back { IfErr result (λ back. back ≡ item) }
        ensures err { OnErr result (self.new ≡ self.old) }
    {
        let _ = &item.due;
        let place = place_behind(&self.items, &item);
        match self.items.insert(place, item) {
            Ok(()) => Ok(()),
            Err(refused) => Err(refused.value),
        }
    }

    /// The least due of the items, and `None` where there are none.
    pub fn least(&self) -> Option<Stamp>
        ensures first { result ≡ first_due self.now }
        ensures least { IfSome result (λ due. Each (λ i. at_most due i.due ≡ true) self.now) }
        ensures bounds { ForSome result IsDue }
        ensures dues { Each (λ i. IsDue i.due) self.now }
    {
        self.items.front().map(|item| item.due)
    }

    /// Takes out the first item, where it is due by the cut: `None` exactly where none is.
    pub fn take_due(&mut self, cut: Stamp) -> Option<Item>
        ensures takes { TakesDue cut self.old result self.new }
        ensures none { IsNone result ↔ Each (λ i. is_due cut i ≡ false) self.old }
    {
        if first_is_due(&self.items, &cut) {
            self.items.pop_front()
        } else {
            None
        }
    }

    /// How many items there are.
    pub fn len(&self) -> usize
        ensures { result ≡ length self.now }
    {
        self.items.len()
    }

    /// Whether there are none.
    pub fn is_empty(&self) -> bool
        ensures { IsTrue result ↔ (self.now ≡ []) }
    {
        self.items.is_empty()
    }

    /// Copies of the items that are due by the cut, in order. It takes no memory where none is.
    pub fn due_copies(&self, cut: Stamp) -> Result<Items<Item>, OutOfMemory>
        ensures copies { IfOk result (λ copies. copies ≡ filter (is_due cut) self.now) }
        ensures none_due { filter (is_due cut) self.now ≡ [] → IsOk result }
    {
        copies_of_first(&self.items, due_count(&self.items, &cut))
    }

    /// Takes out every item that the call of this federate with this sequence number made, and
    /// says how many they were: so a caller that finds no memory for a later item of the call
    /// has the queue as it was before.
    pub fn take_back(&mut self, source: u16, seq: u64) -> u64
        ensures after { self.new ≡ filter (is_made_otherwise source seq) self.old }
        ensures count { result ≡ count_by (is_made_by source seq) self.old }
    {
        take_call(&mut self.items, source, seq)
    }
}

// The place of an item in a queue: behind all that it isn't sooner than.
fn place_behind(items: &VecDeque<Item>, item: &Item) -> usize
    requires { InDueOrder items.now.items }
    ensures bound { result ≤ length items.now.items }
    ensures place { insert items.now.items result item.now ≡ enqueue item.now items.now.items }
{
    items.partition_point(|other| !item.is_sooner(other))
}

fn first_is_due(items: &VecDeque<Item>, cut: &Stamp) -> bool
    ensures { result ≡ is_first_due cut.now items.now.items }
{
    match items.front() {
        Some(first) => first.is_due(cut),
        None => false,
    }
}

// How many items are due by the cut: they stand in front.
fn due_count(items: &VecDeque<Item>, cut: &Stamp) -> usize
    requires { InDueOrder items.now.items }
    ensures { take result items.now.items ≡ filter (is_due cut.now) items.now.items }
{
    items.partition_point(|item| item.is_due(cut))
}

fn copies_of_first(items: &VecDeque<Item>, count: usize) -> Result<Items<Item>, OutOfMemory>
    ensures copies { IfOk result (λ copies. copies ≡ take count items.now.items) }
    ensures none { take count items.now.items ≡ [] → IsOk result }
{
    let alloc = *items.allocator();
    let mut copies = Items::new(alloc);
    for item in items.iter().take(count) {
        copies.push(item.copy(alloc)?)?;
    }
    Ok(copies)
}

fn take_call(items: &mut VecDeque<Item>, source: u16, seq: u64) -> u64
    ensures after { items.new.items ≡ filter (is_made_otherwise source seq) items.old.items }
    ensures count { result ≡ count_by (is_made_by source seq) items.old.items }
{
    let before = items.len();
    items.retain(|item| item.source != source || item.seq != seq);
    (before - items.len()) as u64
}
