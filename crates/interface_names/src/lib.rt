//! What federates bring, and the registry that numbers them and keeps their names apart.
#![tactic(auto)]

mod laws;
mod names;
mod records;
mod registry;

pub use laws::registry_laws;
pub use names::{GlobalName, InterfaceKind, NAME_LIMIT, global_name};
pub use records::{EndRecord, FederateRecord, FilterKind, FilterRecord, InputRecord, PubRecord};
pub use registry::{FEDERATE_LIMIT, INTERFACE_LIMIT, Registry, RegistryRefusal};
