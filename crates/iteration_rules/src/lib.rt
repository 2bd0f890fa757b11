//! Modes of requests and kinds of grants, and the limit of iterations (docs/RULES.md, Iterations).
#![tactic(auto)]

ghost use Rattle.std.specs.Prelude.{◌≡◌};
ghost use Rattle.iteration_rules.specs.Iteration.{effective};

#[cfg(test)]
mod tests;

/// How a federate asks for a time.
#[derive(Clone, Copy, Debug, PartialEq, Eq)]
pub enum Mode {
    /// A time after that of the last grant.
    Next,
    /// Another micro step at the time of the last grant, whatever arrives.
    Force,
    /// Another micro step at the time of the last grant if an item arrives for it, else a later time.
    IfNeeded,
}

/// What a grant is.
#[derive(Clone, Copy, Debug, PartialEq, Eq)]
pub enum Kind {
    /// Its time is above that of the grant before, or it is the entry.
    NextStep,
    /// Its time is that of the grant before.
    Iterating,
}

/// The mode in which a request is taken after `count` iterating grants at one time, where `max` are
/// allowed: Next from the limit on.
pub fn effective_mode(mode: Mode, count: u32, max: u32) -> Mode
    ensures { result ≡ effective mode count max }
{
    if count >= max { Mode::Next } else { mode }
}
