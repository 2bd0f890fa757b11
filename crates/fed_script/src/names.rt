ghost use Rattle.std.specs.Prelude.{◌≡◌, List, ℕ, IfOk};
ghost use Rattle.hel_values.specs.declared.EndRef.{EndRef};

use hel_lists::{OutOfMemory, Text};
use hel_values::EndRef;
use std::alloc::Global;

/// What tells the global names of endpoints.
pub trait EndpointNames {
    /// The name of each endpoint.
    ghost name_of: { Self → EndRef → List ℕ };

    /// A copy of an endpoint's global name.
    fn name(&self, alloc: Global, endpoint: EndRef) -> Result<Text, OutOfMemory>
        ensures { IfOk result (λ name. name ≡ name_of self.now endpoint) };
}
