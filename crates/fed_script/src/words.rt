ghost use Rattle.std.specs.Prelude.{◌≡◌, ◌-◌, ◌^◌, [], ◌∷◌, ◌++◌, length, min, OnOk, OnErr};
ghost use Rattle.std.specs.List.{repeat};
ghost use Rattle.fed_script.specs.Round.{left_of};
ghost use Rattle.fed_script.specs.Script.{NamesTime, KeepTimes};

use crate::Word;
use crate::rounds::{Part, Rounds};
use hel_lists::OutOfMemory;
use std::alloc::Global;
use std::marker::Model;

/// The words of a script, with repeats. Contracts see the list of the words with each repeat written
/// out, while a repeat keeps its body once. Each time in it is at most MAX (docs/RULES.md, Scripts).
#[derive(Debug, Drop)]
pub struct Words {
    parts: Vec<Part>,
    count: u64,
}

impl Model for Words {
    ghost use Rattle.std.specs.Prelude.{List};
    ghost use Rattle.fed_script.specs.declared.word.Word.{Word};

    ghost Value = { List Word };

    ghost use Rattle.fed_script.specs.Rounds.{unrolled};
    ghost use Rattle.fed_script.specs.Written.{IsWritten};

    ghost view = { λ w. unrolled w.parts.items };

    ghost invariant = { IsWritten };
}

impl Words {
    /// No words.
    pub fn new(alloc: Global) -> Words
        ensures { result ≡ [] }
    {
        Words {
            parts: Vec::new(alloc),
            count: 0,
        }
    }

    /// Puts a word behind the last.
    pub fn push(&mut self, word: Word) -> Result<(), OutOfMemory>
        requires { NamesTime word }
        ensures ok { OnOk result (self.new ≡ self.old ++ word ∷ []) }
        ensures err { OnErr result (self.new ≡ self.old) }
    {
        self.parts.push(Part::Word(word))?;
        self.count = self.count.saturating_add(1);
        Ok(())
    }

    /// Puts words behind the last, so many times. It takes memory for one part, however many words
    /// that are.
    pub fn push_repeat(&mut self, times: u32, body: Words) -> Result<(), OutOfMemory>
        ensures ok { OnOk result (self.new ≡ self.old ++ repeat times body) }
        ensures err { OnErr result (self.new ≡ self.old) }
    {
        if times == 0 || body.parts.is_empty() {
            return Ok(());
        }
        let Words { parts, count } = body;
        self.parts.push(Part::Repeat(Rounds::of(times, parts)))?;
        self.count = self
            .count
            .saturating_add(count.saturating_mul(u64::from(times)));
        Ok(())
    }

    /// How many words there are with each repeat written out, and at most 2^64 - 1.
    pub fn count(&self) -> u64
        ensures { result ≡ min (length self.now) (2 ^ 64 - 1) }
    {
        self.count
    }

    pub(crate) fn into_rounds(self) -> Option<Rounds>
        ensures words { left_of result ≡ self }
        ensures times { KeepTimes self }
    {
        let Words { parts, .. } = self;
        if parts.is_empty() {
            None
        } else {
            Some(Rounds::of(1, parts))
        }
    }
}
