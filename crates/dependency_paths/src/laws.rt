// Laws of ancestors.
ghost use Rattle.dependency_paths.specs.Laws.{AncestorLaws};

/// An ancestor's ancestor is an ancestor, or the federate itself, and links have one list of
/// ancestors alone.
pub fn ancestor_laws()
    ensures { AncestorLaws }
{}
