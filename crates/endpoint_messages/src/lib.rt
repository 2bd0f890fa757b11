//! Messages that reached an endpoint, first in first out.
#![tactic(auto)]

ghost use Rattle.std.specs.Prelude.{◌≡◌, ◌≤◌, ◌<◌, ◌+◌, [], ◌∷◌, ◌++◌, ◌↔◌, length, slice_get, IsTrue, OnOk, OnErr, option_copied};
ghost use Rattle.endpoint_messages.specs.Inbox.{Takes};

use hel_lists::{OutOfMemory, Text};
use hel_values::Payload;
use std::alloc::Global;
use std::collections::VecDeque;
use std::marker::Model;

/// A received message as a script sees it (docs/RULES.md, Values).
#[derive(Debug, Drop)]
pub struct Letter {
    /// The global name of its original source.
    pub source: Text,
    pub payload: Payload,
}

/// The messages of an endpoint that no script has taken: contracts see the list of them, the
/// oldest first, beside the number for which there is room.
#[derive(Debug, Drop)]
pub struct Inbox {
    letters: VecDeque<Letter>,
}

impl Model for Inbox {
    ghost use Rattle.std.specs.Prelude.{◌-◌};
    ghost use Rattle.std.specs.VecDeque.{deque_capacity, deque_len};
    ghost use Rattle.endpoint_messages.specs.Mail.{Mail};

    ghost Value = { Mail };

    ghost view = { λ b. record { letters = b.letters.items; spare = deque_capacity b.letters - deque_len b.letters } };
}

impl Inbox {
    /// An empty inbox.
    pub fn new(alloc: Global) -> Inbox
        ensures { result.letters ≡ [] }
    {
        Inbox {
            letters: VecDeque::new(alloc),
        }
    }

    /// Makes room for this many letters more: it takes memory only where there is too little room.
    pub fn make_room(&mut self, n: usize) -> Result<(), OutOfMemory>
        ensures ok { OnOk result (n ≤ self.new.spare) }
        ensures spare { self.old.spare ≤ self.new.spare }
        ensures letters { self.new.letters ≡ self.old.letters }
        ensures full { OnErr result (self.old.spare < n) }
    {
        self.letters.reserve(n)?;
        Ok(())
    }

    /// Puts a letter behind all others, where there is room for it.
    pub fn deliver(&mut self, letter: Letter)
        requires { 0 < self.old.spare }
        ensures letters { self.new.letters ≡ self.old.letters ++ letter ∷ [] }
        ensures spare { self.new.spare + 1 ≡ self.old.spare }
    {
        self.letters.push_back_reserved(letter);
    }

    /// The oldest letter, which stays: `None` exactly where there is none.
    pub fn first(&self) -> Option<&Letter>
        ensures { option_copied result ≡ slice_get self.now.letters 0 }
    {
        self.letters.front()
    }

    /// Takes the oldest letter: `None` exactly where there is none.
    pub fn take(&mut self) -> Option<Letter>
        ensures { Takes self.old result self.new }
    {
        self.letters.pop_front()
    }

    /// How many letters there are.
    pub fn len(&self) -> usize
        ensures { result ≡ length self.now.letters }
    {
        self.letters.len()
    }

    /// Whether there are none.
    pub fn is_empty(&self) -> bool
        ensures { IsTrue result ↔ (self.now.letters ≡ []) }
    {
        self.letters.is_empty()
    }
}

#[cfg(test)]
mod tests {
    use super::*;
    use std::test::Fail;

    fn letter(alloc: Global, source: &str, byte: u8) -> Result<Letter, Fail> {
        let source = Text::from_str(alloc, source)?;
        let payload = Payload::of(vec![in alloc; byte, b'i']?)
            .ok()
            .ok_or("payload")?;
        Ok(Letter { source, payload })
    }

    #[test]
    fn the_oldest_letter_comes_first(rt: HostRuntime) -> Result<(), Fail> {
        let mut inbox = Inbox::new(rt.alloc());
        inbox.make_room(3)?;
        inbox.deliver(letter(rt.alloc(), "B/e", b'h')?);
        inbox.deliver(letter(rt.alloc(), "A/e", b'o')?);
        inbox.deliver(letter(rt.alloc(), "C", b'p')?);
        for (len, source, byte) in [(3, "B/e", b'h'), (2, "A/e", b'o'), (1, "C", b'p')] {
            assert_eq!(rt; inbox.len(), len);
            let first = inbox.first().ok_or("first")?;
            assert_eq!(rt; first.source.as_str(), source);
            let taken = inbox.take().ok_or("taken")?;
            assert_eq!(rt; taken.source.as_str(), source);
            assert_eq!(rt; taken.payload.bytes(), [byte, b'i'].as_slice());
        }
        assert!(rt; inbox.is_empty() && inbox.first().is_none() && inbox.take().is_none());
        Ok(())
    }
}
