// What the federation calls federates and interfaces. A federate that isn't there has a blank name;
// an interface that isn't there has a blank name of its own, as in `A/`.
ghost use Rattle.std.specs.Prelude.{◌≡◌, IfOk};
ghost use Rattle.federation_plan.specs.Interfaces.{federate_at, publication_at, publication_interface, endpoint_at, pub_name, end_name};

use hel_lists::{OutOfMemory, Text};
use hel_values::EndRef;
use interface_names::{FederateRecord, global_name};
use std::alloc::Global;

/// The name of the federate of a number, and a blank one where there is none.
pub fn federate_name(federates: &[FederateRecord], number: usize) -> &str
    ensures { result.now ≡ (federate_at federates.now number).name }
{
    match federates.get(number) {
        Some(federate) => federate.name.as_str(),
        None => "",
    }
}

/// The name that its federate gave a publication, and whether it is global. Where there is none,
/// the name is blank and isn't global.
pub fn publication_called(federates: &[FederateRecord], at: EndRef) -> (&str, bool)
    ensures name { result.0.now ≡ (publication_at federates.now at).name }
    ensures global { result.1 ≡ (publication_at federates.now at).global }
{
    let Some(federate) = federates.get(usize::from(at.fed)) else {
        return ("", false);
    };
    match federate.publications.as_slice().get(usize::from(at.index)) {
        Some(publication) => (publication.name.as_str(), publication.global),
        None => ("", false),
    }
}

/// The same of an endpoint.
pub fn endpoint_called(federates: &[FederateRecord], at: EndRef) -> (&str, bool)
    ensures name { result.0.now ≡ (endpoint_at federates.now at).item.name }
    ensures global { result.1 ≡ (endpoint_at federates.now at).item.global }
{
    let Some(federate) = federates.get(usize::from(at.fed)) else {
        return ("", false);
    };
    match federate.endpoints.as_slice().get(usize::from(at.index)) {
        Some(endpoint) => (endpoint.name.as_str(), endpoint.global),
        None => ("", false),
    }
}

/// What the federation calls a publication (docs/RULES.md, Names).
pub fn publication_name(
    alloc: Global,
    federates: &[FederateRecord],
    at: EndRef,
) -> Result<Text, OutOfMemory>
    ensures { IfOk result (λ name. name ≡ pub_name (publication_interface federates.now at)) }
{
    let owner = federate_name(federates, usize::from(at.fed));
    let (name, global) = publication_called(federates, at);
    global_name(alloc, owner, name, global)
}

/// What the federation calls an endpoint (docs/RULES.md, Names).
pub fn endpoint_name(
    alloc: Global,
    federates: &[FederateRecord],
    at: EndRef,
) -> Result<Text, OutOfMemory>
    ensures { IfOk result (λ name. name ≡ end_name (endpoint_at federates.now at)) }
{
    let owner = federate_name(federates, usize::from(at.fed));
    let (name, global) = endpoint_called(federates, at);
    global_name(alloc, owner, name, global)
}
