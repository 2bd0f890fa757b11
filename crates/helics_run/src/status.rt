ghost use Rattle.std.specs.Prelude.{◌≡◌};
ghost use Rattle.helics_run.specs.Statuses.{number_of};

/// How the program ends (docs/FORMATS.md, Statuses).
#[derive(Clone, Copy, Debug, PartialEq, Eq)]
pub enum Status {
    /// What the words ask for was written; no federate failed, and none is live at the end.
    Done = 0,
    /// A federate failed, and the run ended there.
    Halted = 1,
    /// The words are none of the program's.
    BadWords = 2,
    /// A file can't be read.
    FileFault = 3,
    /// What was read is refused, by name.
    Refused = 4,
    /// Standard output or standard error takes no more.
    SinkFault = 5,
    /// A child can't be started or linked.
    OutsideFault = 6,
    /// A link was lost.
    LinkFault = 7,
    /// Federates wait for one another.
    Stuck = 8,
    OutOfMemory = 9,
    /// A count stands at its limit.
    CountLimit = 10,
    /// Runs that are to agree don't.
    Mismatch = 11,
}

impl Status {
    /// The exit status.
    pub fn number(self) -> u8
        ensures { result ≡ number_of self }
    {
        self as u8
    }
}
