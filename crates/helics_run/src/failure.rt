use command_words::WordsRefusal;
use hel_lists::{OutOfMemory, Text};
use scenario_reading::{Refusal, Unread};

/// Why nothing is printed.
#[derive(Debug, Drop)]
pub enum Failure {
    /// The words ask for nothing.
    BadWords,
    /// The file at this path can't be read.
    FileFault(Text),
    Refused(Refusal),
    OutOfMemory,
}

impl From<OutOfMemory> for Failure {
    ghost use Rattle.std.specs.Prelude.{◌≡◌};
    ghost use Rattle.helics_run.specs.declared.failure.Failure.{Failure};

    ghost from_gives = { λ _ f. f ≡ Failure.OutOfMemory };

    fn from(_: OutOfMemory) -> Self {
        Failure::OutOfMemory
    }
}

impl From<WordsRefusal> for Failure {
    ghost use Rattle.std.specs.Prelude.{◌≡◌};
    ghost use Rattle.helics_run.specs.Answers.{failure_of_words};

    ghost from_gives = { λ refusal f. f ≡ failure_of_words refusal };

    fn from(refusal: WordsRefusal) -> Self {
        match refusal {
            WordsRefusal::BadWords => Failure::BadWords,
            WordsRefusal::OutOfMemory => Failure::OutOfMemory,
        }
    }
}

impl From<Unread> for Failure {
    ghost use Rattle.std.specs.Prelude.{◌≡◌};
    ghost use Rattle.helics_run.specs.Answers.{failure_of_unread};

    ghost from_gives = { λ unread f. f ≡ failure_of_unread unread };

    fn from(unread: Unread) -> Self {
        match unread {
            Unread::FileFault(path) => Failure::FileFault(path),
            Unread::Refused(refusal) => Failure::Refused(refusal),
            Unread::OutOfMemory => Failure::OutOfMemory,
        }
    }
}
