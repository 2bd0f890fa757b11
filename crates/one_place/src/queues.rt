// Items on their way into the queues of several federates.
ghost use Rattle.std.specs.Prelude.{◌≡◌, ◌<◌, ◌^◌, OnOk, OnErr, length, map};
ghost use Rattle.one_place.specs.Members.{AreClocks, AreMade, clock_at, called_at, put_in, put_all, taken_back};

use crate::seat::Clock;
use due_queue::Item;
use hel_lists::OutOfMemory;

/// A federate calls: each item goes into the queue of its target, and the federate's sequence number
/// rises, also where there is no item. Without memory nothing changes.
pub fn call(clocks: &mut [Clock], source: u16, items: Vec<Item>) -> Result<(), OutOfMemory>
    requires within { source < length clocks.old }
    requires clocks { AreClocks clocks.old }
    requires count { (clock_at clocks.old source).seq < 2 ^ 32 }
    requires made { AreMade (length clocks.old) source (clock_at clocks.old source).seq items.items }
    requires new { map (taken_back source (clock_at clocks.old source).seq) clocks.old ≡ clocks.old }
    ensures ok { OnOk result (clocks.new ≡ called_at source (put_all items.items clocks.old)) }
    ensures clocks { OnOk result (AreClocks clocks.new) }
    ensures err { OnErr result (clocks.new ≡ clocks.old) }
{
    put_items(clocks, source, items)?;
    let clock = &mut clocks[usize::from(source)];
    clock.seq += 1;
    Ok(())
}

// Puts the items of a federate's next call into the queues of their targets. Without memory for one
// of them the others are taken back.
fn put_items(clocks: &mut [Clock], source: u16, items: Vec<Item>) -> Result<(), OutOfMemory>
    requires within { source < length clocks.old }
    requires clocks { AreClocks clocks.old }
    requires made { AreMade (length clocks.old) source (clock_at clocks.old source).seq items.items }
    requires new { map (taken_back source (clock_at clocks.old source).seq) clocks.old ≡ clocks.old }
    ensures ok { OnOk result (clocks.new ≡ put_all items.items clocks.old) }
    ensures clocks { OnOk result (AreClocks clocks.new) }
    ensures err { OnErr result (clocks.new ≡ clocks.old) }
{
    let seq = clocks[usize::from(source)].seq;
    let put = put_each(clocks, source, seq, items);
    if put.is_err() {
        take_back(clocks, source, seq);
    }
    put
}

// Puts one item after another in, as long as there is memory.
fn put_each(
    clocks: &mut [Clock],
    source: u16,
    seq: u64,
    items: Vec<Item>,
) -> Result<(), OutOfMemory>
    requires clocks { AreClocks clocks.old }
    requires made { AreMade (length clocks.old) source seq items.items }
    ensures ok { OnOk result (clocks.new ≡ put_all items.items clocks.old) }
    ensures clocks { AreClocks clocks.new }
    ensures back { OnErr result (map (taken_back source seq) clocks.new ≡ map (taken_back source seq) clocks.old) }
{
    for item in items {
        put_one(clocks, item)?;
    }
    Ok(())
}

// Puts an item into the queue of its target.
fn put_one(clocks: &mut [Clock], item: Item) -> Result<(), OutOfMemory>
    requires within { item.target < length clocks.old }
    requires clocks { AreClocks clocks.old }
    ensures ok { OnOk result (clocks.new ≡ put_in item clocks.old) }
    ensures clocks { AreClocks clocks.new }
    ensures err { OnErr result (clocks.new ≡ clocks.old) }
{
    clocks[usize::from(item.target)].put(item)
}

// Takes the items of one call out of each queue.
fn take_back(clocks: &mut [Clock], source: u16, seq: u64)
    requires { AreClocks clocks.old }
    ensures { clocks.new ≡ map (taken_back source seq) clocks.old }
{
    for at in 0..clocks.len() {
        clocks[at].take_back(source, seq);
    }
}
