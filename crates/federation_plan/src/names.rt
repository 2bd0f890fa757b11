ghost use Rattle.std.specs.Prelude.{◌≡◌, ◌≤◌, ◌<◌, ℕ, List, length, Some, None, if◌then◌else◌, string_bytes, IfOk, OnOk};
ghost use Rattle.std.specs.HashMap.{get_by_text};
ghost use Rattle.std.specs.Str.{bytes_eq};
ghost use Rattle.std.specs.Option.{option_or};
ghost use Rattle.interface_names.specs.Limits.{most_interfaces};
ghost use Rattle.federation_plan.specs.Interfaces.{interfaces_in, interfaces_from, named, publication_of, endpoint_of, AreFew};
ghost use Rattle.federation_plan.specs.Names.{known_as};

use hel_lists::{OutOfMemory, Text};
use hel_values::EndRef;
use interface_names::{EndRecord, FederateRecord, PubRecord, global_name};
use std::alloc::Global;
use std::collections::HashMap;

/// Interfaces of one kind by their names in the federation.
pub(crate) type Names = HashMap<String, EndRef>;

/// An interface that its federate has named.
trait Called {
    ghost use Rattle.std.specs.Prelude.{◌≡◌};
    ghost use Rattle.interface_names.specs.Federate.{OwnName};

    ghost own_name: { Self → OwnName };

    /// The name, and whether it is global.
    fn called(&self) -> (&str, bool)
        ensures { record { name = result.0.now; global = result.1 } ≡ own_name self.now };
}

impl Called for PubRecord {
    ghost own_name = { λ p. record { name = p.name; global = p.global } };

    fn called(&self) -> (&str, bool) {
        (self.name.as_str(), self.global)
    }
}

impl Called for EndRecord {
    ghost own_name = { λ e. record { name = e.name; global = e.global } };

    fn called(&self) -> (&str, bool) {
        (self.name.as_str(), self.global)
    }
}

/// The publications by their names.
pub(crate) fn publication_names(
    alloc: Global,
    federates: &[FederateRecord],
) -> Result<Names, OutOfMemory>
    requires { AreFew federates.now }
    ensures { IfOk result (λ names. (name : List ℕ) → get_by_text names name ≡ publication_of federates.now name) }
{
    let mut names = HashMap::new(alloc);
    for (f, federate) in federates.iter().enumerate() {
        add_names(
            alloc,
            &mut names,
            &federate.name,
            f as u16,
            federate.publications.as_slice(),
        )?;
    }
    Ok(names)
}

/// The endpoints by their names.
pub(crate) fn endpoint_names(
    alloc: Global,
    federates: &[FederateRecord],
) -> Result<Names, OutOfMemory>
    requires { AreFew federates.now }
    ensures { IfOk result (λ names. (name : List ℕ) → get_by_text names name ≡ endpoint_of federates.now name) }
{
    let mut names = HashMap::new(alloc);
    for (f, federate) in federates.iter().enumerate() {
        add_names(
            alloc,
            &mut names,
            &federate.name,
            f as u16,
            federate.endpoints.as_slice(),
        )?;
    }
    Ok(names)
}

// Adds a federate's interfaces, but for names that are there already.
fn add_names<T: Called>(
    alloc: Global,
    names: &mut Names,
    owner: &Text,
    f: u16,
    interfaces: &[T],
) -> Result<(), OutOfMemory>
    requires { length interfaces.now ≤ most_interfaces }
    ensures { OnOk result ((name : List ℕ) → get_by_text names.new name
        ≡ option_or (get_by_text names.old name) (named (known_as T.own_name) name (interfaces_in owner.now f 0 interfaces.now))) }
{
    for (index, interface) in interfaces.iter().enumerate() {
        let (name, global) = interface.called();
        let name = global_name(alloc, owner.as_str(), name, global)?;
        let index = index as u16;
        put(names, name.into_string(), EndRef { fed: f, index })?;
    }
    Ok(())
}

// Puts an interface under a name, where none stands there.
fn put(names: &mut Names, name: String, at: EndRef) -> Result<(), OutOfMemory>
    ensures { OnOk result ((q : List ℕ) → get_by_text names.new q ≡ option_or (get_by_text names.old q) (if bytes_eq q (string_bytes name) then Some at else None)) }
{
    if !names.contains_key(name.as_str()) {
        names.insert(name, at)?;
    }
    Ok(())
}
