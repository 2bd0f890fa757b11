use crate::refusal::Refusal;
use hel_lists::{OutOfMemory, Text};

/// Why files aren't read.
#[derive(Debug, Drop)]
pub enum Unread {
    /// The file at this path can't be read.
    FileFault(Text),
    Refused(Refusal),
    OutOfMemory,
}

impl From<OutOfMemory> for Unread {
    ghost use Rattle.std.specs.Prelude.{◌≡◌};
    ghost use Rattle.scenario_reading.specs.declared.unread.Unread.{Unread};

    ghost from_gives = { λ _ e. e ≡ Unread.OutOfMemory };

    fn from(_: OutOfMemory) -> Self {
        Unread::OutOfMemory
    }
}
