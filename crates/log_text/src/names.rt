// Writes what the federation calls interfaces.
ghost use Rattle.std.specs.Prelude.{◌≡◌, ◌++◌, OnOk, string_bytes};
ghost use Rattle.interface_names.specs.Names.{global_name_of};
ghost use Rattle.federation_plan.specs.Interfaces.{publication_interface, endpoint_at, pub_name, end_name};

use federation_plan::{endpoint_called, federate_name, publication_called};
use hel_lists::OutOfMemory;
use hel_values::EndRef;
use interface_names::FederateRecord;

/// Writes the name of a publication.
pub(crate) fn write_publication(
    out: &mut String,
    federates: &[FederateRecord],
    publication: EndRef,
) -> Result<(), OutOfMemory>
    ensures { OnOk result (string_bytes out.new ≡ string_bytes out.old ++ pub_name (publication_interface federates.now publication)) }
{
    let owner = federate_name(federates, usize::from(publication.fed));
    let (name, global) = publication_called(federates, publication);
    write_name(out, owner, name, global)
}

/// Writes the name of an endpoint.
pub(crate) fn write_endpoint(
    out: &mut String,
    federates: &[FederateRecord],
    endpoint: EndRef,
) -> Result<(), OutOfMemory>
    ensures { OnOk result (string_bytes out.new ≡ string_bytes out.old ++ end_name (endpoint_at federates.now endpoint)) }
{
    let owner = federate_name(federates, usize::from(endpoint.fed));
    let (name, global) = endpoint_called(federates, endpoint);
    write_name(out, owner, name, global)
}

// Writes the name that the federation gives an interface: a global one keeps its own.
fn write_name(out: &mut String, owner: &str, name: &str, global: bool) -> Result<(), OutOfMemory>
    ensures { OnOk result (string_bytes out.new ≡ string_bytes out.old ++ global_name_of owner.now name.now global) }
{
    if !global {
        write!(out, "{owner}/")?;
    }
    out.push_str(name)?;
    Ok(())
}
