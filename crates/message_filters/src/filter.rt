ghost use Rattle.std.specs.Prelude.{◌≡◌, ◌≤◌, ◌%◌, nat_lt};
ghost use Rattle.std.specs.Option.{SomeIff};
ghost use Rattle.helics_time.specs.Time.{longest_span};
ghost use Rattle.message_filters.specs.Limits.{million};
ghost use Rattle.message_filters.specs.Chance.{drop_word};

use hel_values::EndRef;
use rand_core::SeedableRng;
use rand_core::utils::NextWord;
use rand_xoshiro::SplitMix64;
use std::marker::Model;

/// A filter's delay in nanoseconds: at most 2^56 (docs/RULES.md, Filters).
#[derive(Clone, Copy, Debug, PartialEq, Eq)]
pub struct FilterDelay {
    nanoseconds: u64,
}

impl Model for FilterDelay {
    ghost use Rattle.std.specs.Prelude.{ℕ, ◌≤◌};
    ghost use Rattle.helics_time.specs.Time.{longest_span};

    ghost Value = { ℕ };

    ghost view = { λ d. d.nanoseconds };

    ghost invariant = { λ d. d.nanoseconds ≤ longest_span };

    ghost inverse = { λ n. record { nanoseconds = n } };
}

impl FilterDelay {
    /// No delay.
    pub fn zero() -> FilterDelay
        ensures { result ≡ 0 }
    {
        FilterDelay { nanoseconds: 0 }
    }

    /// The delay of so many nanoseconds, and none above 2^56.
    pub fn of(nanoseconds: u64) -> Option<FilterDelay>
        ensures { SomeIff result (nanoseconds ≤ longest_span) nanoseconds }
    {
        if nanoseconds <= 1 << 56 {
            Some(FilterDelay { nanoseconds })
        } else {
            None
        }
    }

    /// In nanoseconds.
    pub fn nanoseconds(&self) -> u64
        ensures value { result ≡ self.now }
        ensures bound { result ≤ longest_span }
    {
        self.nanoseconds
    }
}

/// A chance in millionths: at most 1,000,000, which is certainty (docs/RULES.md, Filters).
#[derive(Clone, Copy, Debug, PartialEq, Eq)]
pub struct PerMillion {
    parts: u32,
}

impl Model for PerMillion {
    ghost use Rattle.std.specs.Prelude.{ℕ, ◌≤◌};
    ghost use Rattle.message_filters.specs.Limits.{million};

    ghost Value = { ℕ };

    ghost view = { λ chance. chance.parts };

    ghost invariant = { λ chance. chance.parts ≤ million };

    ghost inverse = { λ n. record { parts = n } };
}

const MILLION: u32 = 1_000_000;

impl PerMillion {
    /// The chance of so many millionths, and none above 1,000,000.
    pub fn of(parts: u32) -> Option<PerMillion>
        ensures { SomeIff result (parts ≤ million) parts }
    {
        if parts <= MILLION {
            Some(PerMillion { parts })
        } else {
            None
        }
    }

    /// Whether this word of chance falls within it.
    pub(crate) fn hits(&self, word: u64) -> bool
        ensures { result ≡ nat_lt (word % million) self.now }
    {
        word % u64::from(MILLION) < u64::from(self.parts)
    }
}

/// What stands between a message's source and its destination (docs/RULES.md, Filters).
#[derive(Clone, Copy, Debug, PartialEq, Eq)]
pub enum Filter {
    /// The message comes later by this.
    Delay(FilterDelay),
    /// The message is dropped with this chance. The seed sets which messages are.
    Drop { per_million: PerMillion, seed: u64 },
    /// The message goes to this endpoint.
    Reroute(EndRef),
}

/// The word of chance of a message for a drop filter with this seed (docs/RULES.md, Chance).
pub(crate) fn message_word(seed: u64, source: u16, sequence: u64) -> u64
    ensures { result ≡ drop_word seed source sequence }
{
    let message = (u64::from(source) << 32).wrapping_add(sequence);
    let mut chance = SplitMix64::seed_from_u64(seed.wrapping_add(message));
    chance.next_word()
}
