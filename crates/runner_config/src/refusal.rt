ghost use Rattle.std.specs.Prelude.{◌≡◌};
ghost use Rattle.runner_config.specs.declared.refusal.RunnerRefusal.TheVariants.{OutOfMemory as NoMemory};

use hel_lists::OutOfMemory;

/// Why a runner file is refused, in the order in which the reasons are looked for; a number is the
/// place of an entry in the file's list, from 0 (docs/FORMATS.md, Runner file).
#[derive(Clone, Copy, Debug, PartialEq, Eq)]
pub enum RunnerRefusal {
    NotJson,
    NotAnObject,
    /// There is no single list of federates, or it has no entry but brokers.
    NoFederates,
    /// An entry is no object, has a key twice, or another value than a text at a key.
    BadEntry(u64),
    MissingName(u64),
    /// An entry has no `exec`, or one without a word.
    MissingExec(u64),
    UnclosedQuote(u64),
    HostNotLocal(u64),
    /// An entry is the second broker.
    TwoBrokers(u64),
    BadTree(TreeCause),
    /// The broker's entry, at this place, counts other federates than there are.
    BrokerCount(u64),
    OutOfMemory,
}

/// What is wrong with a tree of nodes, in the order in which it is looked for.
#[derive(Clone, Copy, Debug, PartialEq, Eq)]
pub enum TreeCause {
    /// Something isn't of the form of a tree.
    Shape,
    /// Two nodes have one name.
    NameTwice,
    /// A parent is neither the root nor an earlier broker.
    UnknownParent,
    /// An entry's core is none.
    UnknownCore,
    TooManyNodes,
}

impl From<OutOfMemory> for RunnerRefusal {
    ghost from_gives = { λ _ refusal. refusal ≡ NoMemory };

    fn from(_: OutOfMemory) -> Self {
        RunnerRefusal::OutOfMemory
    }
}
