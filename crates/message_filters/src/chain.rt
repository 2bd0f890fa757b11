ghost use Rattle.std.specs.Prelude.{◌≡◌, ◌<◌, ◌↔◌, [], ◌∷◌, ◌++◌, length, Ok, IsOk, OnOk, OnErr};
ghost use Rattle.message_filters.specs.Chain.{filtered_of, KeepsBounds};
ghost use Rattle.message_filters.specs.Limits.{most_filters};

use crate::filter::{Filter, FilterDelay, message_word};
use hel_lists::{Copied, OutOfMemory};
use hel_values::EndRef;
use std::alloc::Global;
use std::marker::Model;

/// The most filters of a chain.
pub const CHAIN_LIMIT: usize = 8;

/// The chain holds as many filters as it may.
#[derive(Clone, Copy, Debug, PartialEq, Eq)]
pub struct ChainFull;

/// What a chain of filters made of a message.
#[derive(Clone, Copy, Debug, PartialEq, Eq)]
pub enum Filtered {
    /// It goes to `dest`, later by `delay` nanoseconds.
    Kept { dest: EndRef, delay: u64 },
    /// The filter at this place of the chain, counted from 0, dropped it.
    Dropped { place: u8 },
}

/// At most 8 filters, in the order in which a message passes them (docs/RULES.md, Filters).
#[derive(Debug, Drop)]
pub struct Chain {
    filters: [Filter; CHAIN_LIMIT],
    len: usize,
}

impl Model for Chain {
    ghost use Rattle.std.specs.Prelude.{◌≤◌, List, take};
    ghost use Rattle.message_filters.specs.declared.filter.Filter.{Filter};
    ghost use Rattle.message_filters.specs.Limits.{most_filters};

    ghost Value = { List Filter };

    ghost view = { λ chain. take chain.len chain.filters };

    ghost invariant = { λ chain. chain.len ≤ most_filters };
}

impl Chain {
    /// A chain of no filters.
    pub fn new() -> Chain
        ensures { result ≡ [] }
    {
        let unused = Filter::Delay(FilterDelay::zero());
        Chain {
            filters: [unused; CHAIN_LIMIT],
            len: 0,
        }
    }

    /// Puts a filter behind the others, unless there are 8.
    pub fn push(&mut self, filter: Filter) -> Result<(), ChainFull>
        ensures room { IsOk result ↔ (length self.old < most_filters) }
        ensures ok { OnOk result (self.new ≡ self.old ++ filter ∷ []) }
        ensures err { OnErr result (self.new ≡ self.old) }
    {
        if self.len == CHAIN_LIMIT {
            return Err(ChainFull);
        }
        self.put(filter);
        Ok(())
    }

    fn put(&mut self, filter: Filter)
        requires { length self.old < most_filters }
        ensures { self.new ≡ self.old ++ filter ∷ [] }
    {
        self.filters[self.len] = filter;
        self.len += 1;
    }

    /// What becomes of a message from federate `source` with this sequence number to `dest`.
    #[tactic(auto, unfolding(crate::specs::Chain::filtered_of))]
    pub fn run(&self, source: u16, sequence: u64, dest: EndRef) -> Filtered
        ensures value { result ≡ filtered_of self.now source sequence dest }
        ensures bounds { KeepsBounds result }
    {
        let mut dest = dest;
        let mut delay = 0;
        for (place, filter) in self.filters[..self.len].iter().enumerate() {
            match filter {
                Filter::Delay(more) => delay += more.nanoseconds(),
                Filter::Drop { per_million, seed } => {
                    if per_million.hits(message_word(*seed, source, sequence)) {
                        return Filtered::Dropped { place: place as u8 };
                    }
                }
                Filter::Reroute(end) => dest = *end,
            }
        }
        Filtered::Kept { dest, delay }
    }
}

impl Copied for Chain {
    fn copy(&self, _alloc: Global) -> Result<Self, OutOfMemory>
        ensures { result ≡ Ok self.now }
    {
        let mut copy = Chain::new();
        for filter in &self.filters[..self.len] {
            copy.put(*filter);
        }
        Ok(copy)
    }
}
