ghost use Rattle.std.specs.Prelude.{◌≡◌, IfOk};

use hel_lists::{Copied, Items, OutOfMemory, Text};
use hel_values::ValueKind;
use helics_time::Settings;
use std::alloc::Global;
use std::marker::Model;

/// A publication: values of one kind.
#[derive(Debug, Drop)]
pub struct PubRecord {
    pub name: Text,
    pub global: bool,
    pub kind: ValueKind,
}

/// An input: it takes the values of its target publications, of one kind or of any. A subscription
/// is one without a name.
#[derive(Debug, Drop)]
pub struct InputRecord {
    pub name: Option<Text>,
    pub global: bool,
    pub kind: Option<ValueKind>,
    pub targets: Items<Text>,
    pub required: bool,
}

/// An endpoint: it sends and receives messages. One that is targeted sends to its destination
/// targets and to those that name it among their source targets, and to no others.
#[derive(Debug, Drop)]
pub struct EndRecord {
    pub name: Text,
    pub global: bool,
    pub targeted: bool,
    pub default_destination: Option<Text>,
    pub destination_targets: Items<Text>,
    pub source_targets: Items<Text>,
}

/// What a filter does with a message: it comes later by so many nanoseconds, is dropped with a
/// chance in millionths, or goes to the endpoint of a name.
#[derive(Debug, Drop)]
pub enum FilterKind {
    Delay(u64),
    Drop { per_million: u32, seed: u64 },
    Reroute(Text),
}

/// A filter of the messages that some endpoints send and others receive. Its delay is at most 2^56
/// nanoseconds and its chance at most 1,000,000; one that reroutes stands before no destination
/// (docs/RULES.md, Filters).
#[derive(Debug, Drop)]
pub struct FilterRecord {
    pub name: Option<Text>,
    pub source_of: Items<Text>,
    pub destination_of: Items<Text>,
    pub kind: FilterKind,
}

impl Model for FilterRecord {
    ghost use Rattle.interface_names.specs.Filter.{FilterTerms, KeepsBounds};

    ghost Value = { FilterTerms };

    ghost view = { λ f. record {
      name = f.name;
      source_of = f.source_of;
      destination_of = f.destination_of;
      kind = f.kind;
    } };

    ghost invariant = { λ f. KeepsBounds f.kind f.destination_of };
}

/// What a federate brings: its name, its settings, and its interfaces, numbered from 0 in each
/// list.
#[derive(Debug, Drop)]
pub struct FederateRecord {
    pub name: Text,
    pub settings: Settings,
    pub publications: Items<PubRecord>,
    pub inputs: Items<InputRecord>,
    pub endpoints: Items<EndRecord>,
    pub filters: Items<FilterRecord>,
}

fn copied_option(alloc: Global, text: &Option<Text>) -> Result<Option<Text>, OutOfMemory>
    ensures { IfOk result (λ copy. copy ≡ text.now) }
{
    match text {
        Some(text) => Ok(Some(text.copy(alloc)?)),
        None => Ok(None),
    }
}

impl Copied for PubRecord {
    fn copy(&self, alloc: Global) -> Result<Self, OutOfMemory> {
        Ok(PubRecord {
            name: self.name.copy(alloc)?,
            global: self.global,
            kind: self.kind,
        })
    }
}

impl Copied for InputRecord {
    fn copy(&self, alloc: Global) -> Result<Self, OutOfMemory> {
        Ok(InputRecord {
            name: copied_option(alloc, &self.name)?,
            global: self.global,
            kind: self.kind,
            targets: self.targets.copy(alloc)?,
            required: self.required,
        })
    }
}

impl Copied for EndRecord {
    fn copy(&self, alloc: Global) -> Result<Self, OutOfMemory> {
        Ok(EndRecord {
            name: self.name.copy(alloc)?,
            global: self.global,
            targeted: self.targeted,
            default_destination: copied_option(alloc, &self.default_destination)?,
            destination_targets: self.destination_targets.copy(alloc)?,
            source_targets: self.source_targets.copy(alloc)?,
        })
    }
}

impl Copied for FilterKind {
    fn copy(&self, alloc: Global) -> Result<Self, OutOfMemory> {
        match self {
            FilterKind::Delay(delay) => Ok(FilterKind::Delay(*delay)),
            FilterKind::Drop { per_million, seed } => Ok(FilterKind::Drop {
                per_million: *per_million,
                seed: *seed,
            }),
            FilterKind::Reroute(name) => Ok(FilterKind::Reroute(name.copy(alloc)?)),
        }
    }
}

impl Copied for FilterRecord {
    fn copy(&self, alloc: Global) -> Result<Self, OutOfMemory> {
        Ok(FilterRecord {
            name: copied_option(alloc, &self.name)?,
            source_of: self.source_of.copy(alloc)?,
            destination_of: self.destination_of.copy(alloc)?,
            kind: self.kind.copy(alloc)?,
        })
    }
}

impl Copied for FederateRecord {
    fn copy(&self, alloc: Global) -> Result<Self, OutOfMemory> {
        Ok(FederateRecord {
            name: self.name.copy(alloc)?,
            settings: self.settings,
            publications: self.publications.copy(alloc)?,
            inputs: self.inputs.copy(alloc)?,
            endpoints: self.endpoints.copy(alloc)?,
            filters: self.filters.copy(alloc)?,
        })
    }
}
