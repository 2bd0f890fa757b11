// The publications, inputs and endpoints of a federate file.
ghost use Rattle.std.specs.Prelude.{◌≡◌, [], ◌∷◌};
ghost use Rattle.json_reading.specs.Reading.{Gives};

use crate::words::{InputKindWord, KindWord};
use hel_lists::{Items, Text};
use interface_names::{EndRecord, InputRecord, PubRecord};
use json_reading::{
    AnyText, ConfigRefusal, Reader, TextOrTexts, TrueOrFalse, members, needed, needed_either,
    optional, optional_either,
};
use serde_json::Value;
use std::alloc::Global;

/// Reads a publication.
#[derive(Clone, Copy, Debug, PartialEq, Eq)]
pub struct PublicationReader;

impl Reader for PublicationReader {
    ghost use Rattle.fed_config.specs.Interfaces.{publication_of};

    type Output = PubRecord;

    ghost reads = { λ reader. publication_of };

    #[tactic(auto, unfolding(crate::specs::Interfaces::publication_of))]
    fn read(&self, alloc: Global, value: &Value) -> Result<PubRecord, ConfigRefusal> {
        let object = members(alloc, value, &["key", "name", "global", "type"])?;
        let name = needed_either(alloc, object, "key", "name", &AnyText)?;
        let global = optional(alloc, object, "global", &TrueOrFalse)?;
        let kind = needed(alloc, object, "type", &KindWord)?;
        Ok(PubRecord {
            name,
            global: global.unwrap_or(false),
            kind,
        })
    }
}

/// Reads a subscription: an input without a name, which targets one publication.
#[derive(Clone, Copy, Debug, PartialEq, Eq)]
pub struct SubscriptionReader;

impl Reader for SubscriptionReader {
    ghost use Rattle.fed_config.specs.Interfaces.{subscription_of};

    type Output = InputRecord;

    ghost reads = { λ reader. subscription_of };

    #[tactic(auto, unfolding(crate::specs::Interfaces::subscription_of))]
    fn read(&self, alloc: Global, value: &Value) -> Result<InputRecord, ConfigRefusal> {
        let object = members(alloc, value, &["key", "name", "type", "required"])?;
        let target = needed_either(alloc, object, "key", "name", &AnyText)?;
        let kind = optional(alloc, object, "type", &InputKindWord)?;
        let required = optional(alloc, object, "required", &TrueOrFalse)?;
        let mut targets = Items::new(alloc);
        if targets.push(target).is_err() {
            return Err(ConfigRefusal::memory(alloc));
        }
        Ok(InputRecord {
            name: None,
            global: false,
            kind: kind.unwrap_or(None),
            targets,
            required: required.unwrap_or(false),
        })
    }
}

/// Reads an input.
#[derive(Clone, Copy, Debug, PartialEq, Eq)]
pub struct InputReader;

impl Reader for InputReader {
    ghost use Rattle.fed_config.specs.Interfaces.{input_of};

    type Output = InputRecord;

    ghost reads = { λ reader. input_of };

    #[tactic(auto, unfolding(crate::specs::Interfaces::input_of))]
    fn read(&self, alloc: Global, value: &Value) -> Result<InputRecord, ConfigRefusal> {
        let keys = ["key", "name", "global", "type", "required", "targets"];
        let object = members(alloc, value, &keys)?;
        let name = optional_either(alloc, object, "key", "name", &AnyText)?;
        let global = optional(alloc, object, "global", &TrueOrFalse)?;
        let kind = optional(alloc, object, "type", &InputKindWord)?;
        let required = optional(alloc, object, "required", &TrueOrFalse)?;
        let targets = optional(alloc, object, "targets", &TextOrTexts)?;
        Ok(InputRecord {
            name,
            global: global.unwrap_or(false),
            kind: kind.unwrap_or(None),
            targets: targets.unwrap_or(Items::new(alloc)),
            required: required.unwrap_or(false),
        })
    }
}

/// Reads an endpoint.
#[derive(Clone, Copy, Debug, PartialEq, Eq)]
pub struct EndpointReader;

impl Reader for EndpointReader {
    ghost use Rattle.fed_config.specs.Interfaces.{endpoint_of};

    type Output = EndRecord;

    ghost reads = { λ reader. endpoint_of };

    #[tactic(auto, unfolding(crate::specs::Interfaces::endpoint_of))]
    fn read(&self, alloc: Global, value: &Value) -> Result<EndRecord, ConfigRefusal> {
        let keys = [
            "name",
            "key",
            "global",
            "targeted",
            "destination",
            "destinationtargets",
            "sourcetargets",
        ];
        let object = members(alloc, value, &keys)?;
        let name = needed_either(alloc, object, "name", "key", &AnyText)?;
        let global = optional(alloc, object, "global", &TrueOrFalse)?;
        let targeted = optional(alloc, object, "targeted", &TrueOrFalse)?;
        let default_destination = optional(alloc, object, "destination", &AnyText)?;
        let destination_targets = optional(alloc, object, "destinationtargets", &TextOrTexts)?;
        let source_targets = optional(alloc, object, "sourcetargets", &TextOrTexts)?;
        Ok(EndRecord {
            name,
            global: global.unwrap_or(false),
            targeted: targeted.unwrap_or(false),
            default_destination,
            destination_targets: destination_targets.unwrap_or(Items::new(alloc)),
            source_targets: source_targets.unwrap_or(Items::new(alloc)),
        })
    }
}
