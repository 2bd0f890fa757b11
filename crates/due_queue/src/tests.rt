ghost use Rattle.std.specs.Prelude.{◌≡◌};

use super::*;
use hel_lists::Copied;
use hel_values::{EndRef, Payload, Value};
use helics_time::Stamp;
use std::alloc::Global;
use std::test::Fail;

// Source, sequence number, time and micro step of the due, input, and the value that it hands over.
type Row = (u16, u64, u32, u32, u16, i64);

const CAME: [Row; 7] = [
    (2, 0, 10, 1, 0, 1),
    (1, 5, 10, 1, 0, 2),
    (1, 5, 10, 1, 1, 3),
    (1, 4, 10, 1, 7, 4),
    (9, 0, 10, 0, 0, 5),
    (0, 9, 17, 0, 0, 6),
    (1, 5, 10, 1, 0, 7),
];

fn stamp(time: u32, micro: u32) -> Stamp
    ensures time { result.time ≡ time }
    ensures micro { result.micro ≡ micro }
{
    Stamp {
        time: time as u64,
        micro: micro as u64,
    }
}

fn item_of(row: Row) -> Item {
    let (source, seq, time, micro, input, number) = row;
    let publication = EndRef {
        fed: source,
        index: 3,
    };
    let value = Value::Int(number);
    Item {
        source,
        seq,
        target: 4,
        due: stamp(time, micro),
        content: Content::Value {
            input,
            publication,
            value,
        },
    }
}

// The value that an item hands over, and 0 for a message.
fn number_of(item: &Item) -> i64 {
    match &item.content {
        Content::Value {
            value: Value::Int(number),
            ..
        } => *number,
        _ => 0,
    }
}

fn numbers_taken(alloc: Global, queue: &mut DueQueue, cut: Stamp) -> Result<Vec<i64>, Fail> {
    let mut numbers = Vec::new(alloc);
    for _ in 0..CAME.len() {
        if let Some(item) = queue.take_due(cut) {
            numbers.push(number_of(&item))?;
        }
    }
    Ok(numbers)
}

#[test]
fn items_come_in_order_of_due_and_call(rt: HostRuntime) -> Result<(), Fail> {
    let mut queue = DueQueue::new(rt.alloc());
    for row in CAME {
        assert!(rt; queue.put(item_of(row)).is_ok());
    }
    let due = [CAME[4], CAME[3], CAME[1], CAME[6], CAME[2], CAME[0]];
    let copies = queue.due_copies(stamp(10, 1))?;
    assert_eq!(rt; copies.len(), due.len());
    for (copy, row) in copies.as_slice().iter().zip(due) {
        assert!(rt; *copy == item_of(row), "{row:?}");
    }
    assert_eq!(rt;
        numbers_taken(rt.alloc(), &mut queue, stamp(10, 0))?.as_slice(),
        [5].as_slice()
    );
    assert_eq!(rt; queue.take_back(1, 5), 3);
    assert_eq!(rt; queue.least(), Some(stamp(10, 1)));
    assert_eq!(rt;
        numbers_taken(rt.alloc(), &mut queue, stamp(17, 0))?.as_slice(),
        [4, 1, 6].as_slice()
    );
    assert!(rt; queue.is_empty() && queue.len() == 0);
    Ok(())
}

#[test]
fn a_copy_is_equal_and_other_items_are_not(rt: HostRuntime) -> Result<(), Fail> {
    let end = EndRef { fed: 1, index: 2 };
    let other_end = EndRef { fed: 4, index: 2 };
    let payload = Payload::of(vec![in rt.alloc(); b'h', b'i']?)
        .ok()
        .ok_or("payload")?;
    let message = Message {
        source: end,
        original_source: end,
        destination: other_end,
        original_destination: end,
        time: 60,
        payload,
    };
    let sent = Item {
        source: 1,
        seq: 5,
        target: 4,
        due: stamp(10, 1),
        content: Content::Message(message),
    };
    assert_eq!(rt; sent.content.interface(), 2);
    let items = [sent, item_of(CAME[1]), item_of(CAME[2]), item_of(CAME[6])];
    for (i, item) in items.iter().enumerate() {
        let copied = item.copy(rt.alloc())?;
        for (j, other) in items.iter().enumerate() {
            assert!(rt; (copied == *other) == (i == j), "{i} {j}");
        }
    }
    Ok(())
}
