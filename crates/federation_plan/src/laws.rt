// Laws of plans.
ghost use Rattle.federation_plan.specs.Laws.{PlanLaws};

/// What every layer above a plan uses: names mean interfaces of the federation; the machine's laws hold of the
/// plan's calls; ancestors are federates, and closed; a message to an endpoint arrives at an endpoint, of the sender
/// or of one that has it among its ancestors; what is objected, and what is sent, is by the plan's interfaces; nodes
/// form a tree, with the federates' cores among them (docs/RULES.md, Targets and dependencies, Trees).
pub fn plan_laws()
    ensures { PlanLaws }
{}
