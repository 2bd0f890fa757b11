// Laws of registries.
ghost use Rattle.interface_names.specs.Laws.{RegistryLaws};

/// After any calls of `add` a new registry is the list of the accepted federates, and holds each
/// name at most once for each kind.
pub fn registry_laws()
    ensures { RegistryLaws }
{}
