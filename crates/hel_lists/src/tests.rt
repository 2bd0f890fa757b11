use crate::{Copied, Items, Text};
use std::test::Fail;

#[test]
fn copies_lists(rt: HostRuntime) -> Result<(), Fail> {
    let cases: [&[u16]; 3] = [&[], &[7], &[1, 2, 3]];
    for numbers in cases {
        let list = Items::from_vec(Vec::from_slice(rt.alloc(), numbers)?);
        let mut copy = list.copy(rt.alloc())?;
        assert!(rt; copy == list, "{numbers:?}");
        copy.push(9)?;
        assert!(rt; copy != list, "{numbers:?}");
        assert_eq!(rt; copy.pop(), Some(9), "{numbers:?}");
        assert_eq!(rt; copy.as_slice(), numbers);
    }
    Ok(())
}

#[test]
fn copies_texts(rt: HostRuntime) -> Result<(), Fail> {
    for words in ["", "a", "Grüße"] {
        let mut texts = Items::new(rt.alloc());
        texts.push(Text::from_str(rt.alloc(), words)?)?;
        let mut copies = texts.copy(rt.alloc())?;
        assert!(rt; copies == texts, "{words}");
        copies.at_mut(0).push_str("!")?;
        assert!(rt; copies != texts, "{words}");
        assert_eq!(rt; copies.at(0).len(), words.len() + 1, "{words}");
    }
    Ok(())
}
