use hel_lists::Text;
use helics_time::TimeText;
use std::alloc::Global;

/// Why a value of a file is refused (docs/FORMATS.md, Federate file).
#[derive(Clone, Copy, Debug, PartialEq, Eq)]
pub enum ConfigCause {
    NotJson,
    NotAnObject,
    NotAList,
    NotAText,
    NotABool,
    NotATime,
    Time(TimeText),
    NotANumber,
    OutOfRange,
    Missing,
    UnknownWord,
    DoubledKey,
    BadHex,
    TooManySteps,
    TooDeep,
    OutOfMemory,
}

/// A refusal: the place of a value, as a JSON Pointer with the keys as the file spells them, and
/// why it is refused.
#[derive(Debug, Drop)]
pub struct ConfigRefusal {
    pub path: Text,
    pub cause: ConfigCause,
}

impl ConfigRefusal {
    ghost use Rattle.std.specs.Prelude.{◌≡◌, [], ◌++◌};
    ghost use Rattle.json_reading.specs.Reading.{Stands, no_memory, refused, below};

    /// Want of memory, which has no place.
    pub fn memory(alloc: Global) -> ConfigRefusal
        ensures { result ≡ no_memory }
    {
        ConfigRefusal {
            path: Text::new(alloc),
            cause: ConfigCause::OutOfMemory,
        }
    }

    /// The refusal of the value itself.
    pub fn of(alloc: Global, cause: ConfigCause) -> ConfigRefusal
        ensures { result ≡ refused [] cause }
    {
        ConfigRefusal {
            path: Text::new(alloc),
            cause,
        }
    }

    /// The refusal at a key, or at a place of a list.
    pub fn at(alloc: Global, step: &str, cause: ConfigCause) -> ConfigRefusal
        ensures { Stands result (below step.now (refused [] cause)) }
    {
        ConfigRefusal::of(alloc, cause).under(alloc, step)
    }

    /// The refusal below a key, or below a place of a list.
    pub fn under(self, alloc: Global, step: &str) -> ConfigRefusal
        ensures { Stands result (below step.now self) }
    {
        let ConfigRefusal { path, cause } = self;
        match format!(in alloc; "/{step}{path}") {
            Ok(path) => ConfigRefusal {
                path: Text::of(path),
                cause,
            },
            Err(_) => ConfigRefusal::memory(alloc),
        }
    }
}
