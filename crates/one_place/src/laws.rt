// Laws of the machine's steps and of reference runs.
ghost use Rattle.one_place.specs.Laws.{StepsRun, ReferenceRuns, FailureRuns, OrdersAgree};

/// The steps that a machine accepts from its opening on are a run of its plan. So each law of the crate
/// `machine_laws` holds of it: docs/RULES.md, Steps.
pub fn steps_run()
    ensures { StepsRun }
{}

/// Begin, and then the steps of a reference run's moves in order, are a run of its plan, to the state whose logs
/// are the reference logs: docs/RULES.md, Reference run.
pub fn reference_runs()
    ensures { ReferenceRuns }
{}

/// The steps of the run up to the first failure, in order, are a run of the plan as well: docs/RULES.md,
/// Reference run.
pub fn failure_runs()
    ensures { FailureRuns }
{}

/// One answer: however scripted federates take turns, once none of them may act their logs are the reference
/// logs: docs/RULES.md, Reference run.
pub fn orders_agree()
    ensures { OrdersAgree }
{}
