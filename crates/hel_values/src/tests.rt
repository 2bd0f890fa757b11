use super::*;
use std::test::Fail;

// A text of so many bytes.
fn text_of(alloc: Global, len: usize) -> Result<String, Fail> {
    Ok(String::from_utf8(vec![in alloc; b'x'; len]?)?)
}

#[test]
fn only_what_is_too_long_is_handed_back(rt: HostRuntime) -> Result<(), Fail> {
    for (len, fits) in [(0, true), (65_536, true), (65_537, false)] {
        match Payload::of(vec![in rt.alloc(); 7u8; len]?) {
            Ok(payload) => assert!(rt; fits && payload.bytes().len() == len, "bytes {len}"),
            Err(back) => assert!(rt; !fits && back.bytes.len() == len, "bytes {len}"),
        }
        match TextValue::of(text_of(rt.alloc(), len)?) {
            Ok(held) => assert!(rt; fits && held.text().len() == len, "text {len}"),
            Err(back) => assert!(rt; !fits && back.text.len() == len, "text {len}"),
        }
    }
    Ok(())
}

#[test]
fn a_copy_is_equal_and_other_values_are_not(rt: HostRuntime) -> Result<(), Fail> {
    let text = TextValue::of(String::from_str(rt.alloc(), "hi")?)
        .ok()
        .ok_or("text")?;
    let payload = Payload::of(vec![in rt.alloc(); b'h', b'i']?)
        .ok()
        .ok_or("payload")?;
    let other = TextValue::of(String::from_str(rt.alloc(), "ho")?)
        .ok()
        .ok_or("other")?;
    let values = [
        (Value::Int(-5), ValueKind::Int),
        (Value::Int(5), ValueKind::Int),
        (Value::Text(text), ValueKind::Text),
        (Value::Text(other), ValueKind::Text),
        (Value::Bytes(payload), ValueKind::Bytes),
    ];
    for (i, (value, kind)) in values.iter().enumerate() {
        let copied = value.copy(rt.alloc())?;
        assert_eq!(rt; copied.kind(), *kind);
        for (j, (other, _)) in values.iter().enumerate() {
            assert!(rt; (copied == *other) == (i == j), "{i} {j}");
        }
    }
    Ok(())
}
