// The interfaces to which a script refers.
ghost use Rattle.std.specs.Prelude.{◌≡◌, ◌≤◌, ◌^◌, IfOk};

use crate::places::Places;
use hel_lists::OutOfMemory;
use interface_names::FederateRecord;
use json_reading::{ConfigCause, ConfigRefusal, Reader, text};
use serde_json::Value;
use std::alloc::Global;

/// The interfaces of a federate to which its script refers: their numbers by name, and how many
/// inputs there are.
#[derive(Drop)]
pub struct Names {
    pub publications: Places,
    pub endpoints: Places,
    pub inputs: usize,
    ghost few: { inputs ≤ 2 ^ 16 },
}

impl Names {
    ghost use Rattle.fed_config.specs.Names.{known, HasFew};
    ghost use Rattle.fed_config.specs.Scripts.{known_of};

    #[tactic(auto, using(crate::proofs::Functions::ext))]
    pub fn of(alloc: Global, federate: &FederateRecord) -> Result<Names, OutOfMemory>
        requires { HasFew federate.now }
        ensures { IfOk result (λ names. known names ≡ known_of federate.now) }
    {
        Ok(Names {
            publications: Places::of(alloc, federate.publications.as_slice())?,
            endpoints: Places::of(alloc, federate.endpoints.as_slice())?,
            inputs: federate.inputs.len(),
        })
    }
}

/// Reads the number of an interface by its name.
#[derive(Clone, Copy)]
pub struct NumberIn<'n> {
    pub places: &'n Places,
}

impl<'n> Reader for NumberIn<'n> {
    ghost use Rattle.fed_config.specs.Places.{place_at};
    ghost use Rattle.fed_config.specs.Scripts.{number_by};

    type Output = u16;

    ghost reads = { λ reader. number_by (place_at reader.places.now) };

    fn read(&self, alloc: Global, value: &Value) -> Result<u16, ConfigRefusal> {
        match text(value) {
            Ok(name) => match self.places.find(name) {
                Some(number) => Ok(number),
                None => Err(ConfigRefusal::of(alloc, ConfigCause::UnknownWord)),
            },
            Err(cause) => Err(ConfigRefusal::of(alloc, cause)),
        }
    }
}

/// Reads the number of an input, of which there are so many: at most 65,536.
#[derive(Clone, Copy)]
pub struct InputBelow {
    pub count: usize,
    ghost few: { count ≤ 2 ^ 16 },
}

impl Reader for InputBelow {
    ghost use Rattle.fed_config.specs.Scripts.{input_below};

    type Output = u16;

    ghost reads = { λ reader. input_below reader.count };

    fn read(&self, alloc: Global, value: &Value) -> Result<u16, ConfigRefusal> {
        let Value::Number(number) = value else {
            return Err(ConfigRefusal::of(alloc, ConfigCause::NotANumber));
        };
        match number.as_u64() {
            Some(place) if place < self.count as u64 => Ok(place as u16),
            None if number.is_f64() => Err(ConfigRefusal::of(alloc, ConfigCause::NotANumber)),
            _ => Err(ConfigRefusal::of(alloc, ConfigCause::UnknownWord)),
        }
    }
}
