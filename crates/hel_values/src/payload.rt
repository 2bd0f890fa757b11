ghost use Rattle.std.specs.Prelude.{◌≡◌, ◌≤◌, ◌↔◌, length, IsTrue, IsOk, IfOk, IfErr};
ghost use Rattle.std.specs.Str.{bytes_eq};
ghost use Rattle.hel_values.specs.Limits.{data_limit};

use crate::DATA_LIMIT;
use hel_lists::{Copied, OutOfMemory};
use std::alloc::Global;
use std::marker::Model;

/// Bytes that a message or a value holds: at most 65,536 (docs/RULES.md, Values).
#[derive(Debug, Drop)]
pub struct Payload {
    bytes: Vec<u8>,
}

/// Bytes that are too many for a payload, handed back as they were.
#[derive(Debug, Drop)]
pub struct TooLong {
    pub bytes: Vec<u8>,
}

impl Model for Payload {
    ghost use Rattle.std.specs.Prelude.{List, ℕ, ◌≤◌, length};
    ghost use Rattle.hel_values.specs.Limits.{data_limit};

    ghost Value = { List ℕ };

    ghost view = { λ p. p.bytes.items };

    ghost invariant = { λ p. length p.bytes.items ≤ data_limit };
}

impl Payload {
    /// The payload of these bytes, unless there are more than 65,536. Takes no memory.
    pub fn of(bytes: Vec<u8>) -> Result<Payload, TooLong>
        ensures fits { IsOk result ↔ (length bytes.items ≤ data_limit) }
        ensures value { IfOk result (λ payload. payload ≡ bytes.items) }
        ensures handed_back { IfErr result (λ too_long. too_long.bytes.items ≡ bytes.items) }
    {
        if bytes.len() > DATA_LIMIT {
            return Err(TooLong { bytes });
        }
        Ok(Payload { bytes })
    }

    /// The bytes.
    pub fn bytes(&self) -> &[u8]
        ensures value { result.now ≡ self.now }
        ensures fits { length result.now ≤ data_limit }
    {
        self.bytes.as_slice()
    }
}

impl Copied for Payload {
    fn copy(&self, alloc: Global) -> Result<Self, OutOfMemory> {
        let bytes = Vec::from_slice(alloc, self.bytes())?;
        Ok(Payload { bytes })
    }
}

impl PartialEq for Payload {
    ghost use Rattle.std.specs.Str.{bytes_eq};
    ghost use Rattle.std.specs.Cmp.{partial_equiv_from_equiv};
    ghost use Rattle.std.specs.Cmp.Lexicographic.{nat_list_eq_equiv};

    ghost eq = { bytes_eq };

    ghost laws = { partial_equiv_from_equiv nat_list_eq_equiv };

    fn eq(&self, other: &Payload) -> bool
        ensures value { result ≡ bytes_eq self.now other.now }
        ensures same { IsTrue result ↔ (self.now ≡ other.now) }
    {
        self.bytes() == other.bytes()
    }
}

impl Eq for Payload {
    ghost use Rattle.std.specs.Cmp.Lexicographic.{nat_list_eq_equiv};

    ghost laws = { nat_list_eq_equiv };
}
