ghost use Rattle.std.specs.Prelude.{◌≡◌, ◌++◌, ◌⊎◌, ◌<◌, [], None, Some, length, take, slice_index_or, IfOk, IfErr, OnOk, OnErr};
ghost use Rattle.interface_names.specs.declared.registry.RegistryRefusal.TheVariants.{OutOfMemory as NoMemory};
ghost use Rattle.interface_names.specs.Federate.{names_of, has_bad_name, interface_count};
ghost use Rattle.interface_names.specs.Registry.{all_names, has_federate, plain_refusal_of, duplicate_refusal_of, Answers, added, IsRegistry};

use crate::names::{GlobalName, InterfaceKind, has_bad, is_bad, push_names};
use crate::records::FederateRecord;
use hel_lists::{OutOfMemory, Text};
use indexmap::IndexSet;
use std::alloc::{AllocError, AllocFailed, Global};
use std::marker::Model;

/// The most federates of a federation.
pub const FEDERATE_LIMIT: usize = 512;

/// The most interfaces of a federate, of all kinds together.
pub const INTERFACE_LIMIT: usize = 256;

/// Why a registry refuses a federate. The earlier reason stands before the later.
#[derive(Debug, Drop, PartialEq, Eq)]
pub enum RegistryRefusal {
    TooManyFederates,
    BadName,
    DuplicateFederate,
    TooManyInterfaces,
    DuplicateName(Text),
    OutOfMemory,
}

impl From<OutOfMemory> for RegistryRefusal {
    ghost from_gives = { λ _ refusal. refusal ≡ NoMemory };

    fn from(_: OutOfMemory) -> Self {
        RegistryRefusal::OutOfMemory
    }
}

impl From<AllocError> for RegistryRefusal {
    ghost from_gives = { λ _ refusal. refusal ≡ NoMemory };

    fn from(_: AllocError) -> Self {
        RegistryRefusal::OutOfMemory
    }
}

impl<T: Drop> From<AllocFailed<T>> for RegistryRefusal {
    ghost from_gives = { λ _ refusal. refusal ≡ NoMemory };

    fn from(_: AllocFailed<T>) -> Self {
        RegistryRefusal::OutOfMemory
    }
}

/// The federates of a federation, numbered from 0 as they came: contracts see the list of them.
/// No two have one name, and no two of their interfaces of one kind (docs/RULES.md, Names).
#[derive(Debug, Drop)]
pub struct Registry {
    federates: Vec<FederateRecord>,
    names: IndexSet<GlobalName>,
}

impl Model for Registry {
    ghost use Rattle.std.specs.Prelude.{◌≡◌, List};
    ghost use Rattle.interface_names.specs.declared.records.FederateRecord.{FederateRecord};
    ghost use Rattle.interface_names.specs.Registry.{all_names, IsRegistry};

    ghost Value = { List FederateRecord };

    ghost view = { λ r. r.federates.items };

    ghost invariant = { λ r. IsRegistry r.federates.items × (r.names.keys ≡ all_names r.federates.items) };
}

impl Registry {
    /// A registry of no federates.
    pub fn new(alloc: Global) -> Registry
        ensures { result ≡ [] }
    {
        Registry {
            federates: Vec::new(alloc),
            names: IndexSet::new(alloc),
        }
    }

    /// The number of federates.
    pub fn len(&self) -> usize
        ensures value { result ≡ length self.now }
        ensures kept { IsRegistry self.now }
    {
        self.federates.len()
    }

    /// The federate of this number.
    pub fn federate(&self, f: u16) -> &FederateRecord
        requires { f < length self.now }
        ensures { (other : FederateRecord) → slice_index_or self.now f other ≡ result.now }
    {
        &self.federates[f as usize]
    }

    /// All federates, in the order of their numbers.
    pub fn federates(&self) -> &[FederateRecord]
        ensures { result.now ≡ self.now }
    {
        self.federates.as_slice()
    }

    /// Takes a federate in, and gives it the next number. It is refused where there are 512; where
    /// its name or that of an interface, as written, is empty, longer than 255 bytes or holds a
    /// control character; where another has its name; where it has more than 256 interfaces; and
    /// where one of its interfaces has the name in the federation of an earlier one of the same
    /// kind, its own among them: the first such name is told. The registry stays as it was then,
    /// and where memory is wanting (docs/RULES.md, Names).
    pub fn add(&mut self, federate: FederateRecord) -> Result<u16, RegistryRefusal>
        ensures answer { Answers self.old federate result }
        ensures after { self.new ≡ added self.old federate result }
    {
        match plain_refusal(&self.federates, &federate) {
            Some(refusal) => return Err(refusal),
            None => {}
        }
        let names = names_of_federate(*self.federates.allocator(), &federate)?;
        self.federates.reserve(1)?;
        enter(&mut self.names, names)?;
        let number = self.federates.len() as u16;
        self.federates.push(federate).unwrap();
        Ok(number)
    }
}

// The first reason to refuse a federate that needs no text.
fn plain_refusal(federates: &[FederateRecord], federate: &FederateRecord) -> Option<RegistryRefusal>
    ensures { result ≡ plain_refusal_of federates.now federate.now }
{
    if federates.len() >= FEDERATE_LIMIT {
        Some(RegistryRefusal::TooManyFederates)
    } else if has_bad_name_of(federate) {
        Some(RegistryRefusal::BadName)
    } else if is_taken(federates, &federate.name) {
        Some(RegistryRefusal::DuplicateFederate)
    } else if count_of(federate) > INTERFACE_LIMIT as u128 {
        Some(RegistryRefusal::TooManyInterfaces)
    } else {
        None
    }
}

fn has_bad_name_of(federate: &FederateRecord) -> bool
    ensures { result ≡ has_bad_name federate.now }
{
    is_bad(federate.name.as_str())
        || has_bad(federate.publications.as_slice())
        || has_bad(federate.inputs.as_slice())
        || has_bad(federate.endpoints.as_slice())
        || has_bad(federate.filters.as_slice())
}

fn is_taken(federates: &[FederateRecord], name: &Text) -> bool
    ensures { result ≡ has_federate federates.now name.now }
{
    federates.iter().any(|other| other.name == *name)
}

fn count_of(federate: &FederateRecord) -> u128
    ensures { result ≡ interface_count federate.now }
{
    federate.publications.len() as u128
        + federate.inputs.len() as u128
        + federate.endpoints.len() as u128
        + federate.filters.len() as u128
}

// What the federation calls the federate's interfaces.
#[tactic(auto, unfolding(crate::specs::Federate::names_of))]
fn names_of_federate(
    alloc: Global,
    federate: &FederateRecord,
) -> Result<Vec<GlobalName>, OutOfMemory>
    ensures { IfOk result (λ names. names.items ≡ names_of federate.now) }
{
    let mut names = Vec::new(alloc);
    let name = federate.name.as_str();
    push_names(
        &mut names,
        InterfaceKind::Publication,
        name,
        federate.publications.as_slice(),
    )?;
    push_names(
        &mut names,
        InterfaceKind::Input,
        name,
        federate.inputs.as_slice(),
    )?;
    push_names(
        &mut names,
        InterfaceKind::Endpoint,
        name,
        federate.endpoints.as_slice(),
    )?;
    push_names(
        &mut names,
        InterfaceKind::Filter,
        name,
        federate.filters.as_slice(),
    )?;
    Ok(names)
}

// Puts all names behind those of a table, or none where one stands among those before it.
fn enter(table: &mut IndexSet<GlobalName>, names: Vec<GlobalName>) -> Result<(), RegistryRefusal>
    ensures fresh { OnOk result (duplicate_refusal_of table.old.keys names.items ≡ None) }
    ensures ok { OnOk result (table.new.keys ≡ table.old.keys ++ names.items) }
    ensures duplicate { IfErr result (λ refusal. (refusal ≡ NoMemory) ⊎ (duplicate_refusal_of table.old.keys names.items ≡ Some refusal)) }
    ensures err { OnErr result (table.new.keys ≡ table.old.keys) }
{
    let before = table.len();
    let entered = enter_each(table, names);
    if entered.is_err() {
        table.truncate(before);
    }
    entered
}

// Puts names behind those of a table, up to the first that stands among those before it.
fn enter_each(
    table: &mut IndexSet<GlobalName>,
    names: Vec<GlobalName>,
) -> Result<(), RegistryRefusal>
    ensures fresh { OnOk result (duplicate_refusal_of table.old.keys names.items ≡ None) }
    ensures ok { OnOk result (table.new.keys ≡ table.old.keys ++ names.items) }
    ensures duplicate { IfErr result (λ refusal. (refusal ≡ NoMemory) ⊎ (duplicate_refusal_of table.old.keys names.items ≡ Some refusal)) }
    ensures kept { take (length table.old.keys) table.new.keys ≡ table.old.keys }
{
    table.reserve(names.len())?;
    for name in names {
        if table.contains(&name) {
            return Err(RegistryRefusal::DuplicateName(name.name));
        }
        table.insert(name)?;
    }
    Ok(())
}
