ghost use Rattle.std.specs.Prelude.{◌≡◌, ◌≤◌, ◌↔◌, length, string_bytes, IsTrue, IsOk, IfOk, IfErr};
ghost use Rattle.std.specs.Str.{bytes_eq};
ghost use Rattle.hel_values.specs.Limits.{data_limit};

use crate::DATA_LIMIT;
use hel_lists::{Copied, OutOfMemory};
use std::alloc::Global;
use std::marker::Model;

/// A text that a value holds: at most 65,536 bytes of UTF-8 (docs/RULES.md, Values).
#[derive(Debug, Drop)]
pub struct TextValue {
    text: String,
}

/// A text that is too long for a value, handed back as it was.
#[derive(Debug, Drop)]
pub struct TooLongText {
    pub text: String,
}

impl Model for TextValue {
    ghost use Rattle.std.specs.Prelude.{List, ℕ, ◌≤◌, length, string_bytes};
    ghost use Rattle.hel_values.specs.Limits.{data_limit};

    ghost Value = { List ℕ };

    ghost view = { λ t. string_bytes t.text };

    ghost invariant = { λ t. length (string_bytes t.text) ≤ data_limit };
}

impl TextValue {
    /// The value of this text, unless it has more than 65,536 bytes. Takes no memory.
    pub fn of(text: String) -> Result<TextValue, TooLongText>
        ensures fits { IsOk result ↔ (length (string_bytes text) ≤ data_limit) }
        ensures value { IfOk result (λ held. held ≡ string_bytes text) }
        ensures handed_back { IfErr result (λ too_long. string_bytes too_long.text ≡ string_bytes text) }
    {
        if text.len() > DATA_LIMIT {
            return Err(TooLongText { text });
        }
        Ok(TextValue { text })
    }

    /// The text.
    pub fn text(&self) -> &str
        ensures value { result.now ≡ self.now }
        ensures fits { length result.now ≤ data_limit }
    {
        self.text.as_str()
    }
}

impl Copied for TextValue {
    fn copy(&self, alloc: Global) -> Result<Self, OutOfMemory> {
        let text = String::from_str(alloc, self.text())?;
        Ok(TextValue { text })
    }
}

impl PartialEq for TextValue {
    ghost use Rattle.std.specs.Str.{bytes_eq};
    ghost use Rattle.std.specs.Cmp.{partial_equiv_from_equiv};
    ghost use Rattle.std.specs.Cmp.Lexicographic.{nat_list_eq_equiv};

    ghost eq = { bytes_eq };

    ghost laws = { partial_equiv_from_equiv nat_list_eq_equiv };

    fn eq(&self, other: &TextValue) -> bool
        ensures value { result ≡ bytes_eq self.now other.now }
        ensures same { IsTrue result ↔ (self.now ≡ other.now) }
    {
        self.text() == other.text()
    }
}

impl Eq for TextValue {
    ghost use Rattle.std.specs.Cmp.Lexicographic.{nat_list_eq_equiv};

    ghost laws = { nat_list_eq_equiv };
}
