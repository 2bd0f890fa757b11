// Laws of all runs of the machine, over any plan that has what they need.
ghost use Rattle.machine_laws.specs.Example.{PairRuns};
ghost use Rattle.machine_laws.specs.First.{FirstLaws};
ghost use Rattle.machine_laws.specs.Laws.{RunsKeep, NothingLate, SomeGrant, GrantsOnGrid, LogsRise, LogsTell, RequestsTell, GrantsAsAsked, EarlyNamesTheLeast, KeptUntilReached, HandedWhenReached, HandedOnce, HandedInOrder, ItemsFromCalls, ItemsFates, ItemsAddUp, LogsHold};
ghost use Rattle.machine_laws.specs.Moves.{Diamond, OneEnd, OrdersEnd, OneAnswer, MovesRun, ReferenceEnds, ReferenceLogs, StuckWaits, StopsAtFailure};

/// Every state of every run keeps the facts of its federates' times, and has its undelivered items in order,
/// from ancestors alone, each above its target's last cut, with none to come at or below it: docs/RULES.md,
/// Grants.
pub fn runs_keep()
    ensures { RunsKeep }
{}

/// After a grant nothing that is due by its cut is ever undelivered for its federate: docs/RULES.md, Grants.
pub fn nothing_late()
    ensures { NothingLate }
{}

/// The stamps of a federate's grants strictly rise. The entry is at stamp (0, 1) and a NextStep, whether or
/// not time 0 is lawful. Each later NextStep has a lawful time, at least `max(1, time_delta)` nanoseconds after
/// the time before. Each Iterating grant has the time of the grant before, was asked for in mode Force or
/// IfNeeded, and stands within `max_iterations`. An uninterruptible federate's grant has its request's stamp,
/// the entry excepted. The grant before, its count of iterating grants and the settings are those that the
/// federate's log and the plan tell. What was asked for is what the last request of the federate in the run
/// asked for, in the mode in which it was taken, and no grant is later than that: docs/RULES.md, Grants.
pub fn grants_on_grid()
    ensures grid { GrantsOnGrid }
    ensures rise { LogsRise }
    ensures tell { LogsTell }
    ensures requests { RequestsTell }
    ensures asked { GrantsAsAsked }
{}

/// A grant of a federate that asks for one is refused as Early exactly where an ancestor could still send what
/// is due by its cut. The refusal names the least such ancestor and its event: docs/RULES.md, Steps.
pub fn early_names_the_least()
    ensures { EarlyNamesTheLeast }
{}

/// Where each federate that hasn't finished waits for a grant, and no two that wait for current updates are each
/// other's ancestors, some grant is lawful: docs/RULES.md, Grants.
pub fn some_grant()
    ensures { SomeGrant }
{}

/// An item stays undelivered until the first grant of its target whose cut reaches its due. That grant hands
/// it over, in order, and it is never undelivered again: docs/RULES.md, Hand-over.
pub fn handed_at_first_reaching()
    ensures kept { KeptUntilReached }
    ensures reached { HandedWhenReached }
    ensures once { HandedOnce }
    ensures ordered { HandedInOrder }
    ensures fates { ItemsFates }
{}

/// Items come from accepted publishes and sends alone, and each of these puts in its own: docs/RULES.md, Items.
pub fn items_from_calls()
    ensures { ItemsFromCalls }
{}

/// Of each sort of items as many were put in as were handed over and are left, and each federate's log holds
/// what was handed over to it, in order: docs/RULES.md, Hand-over.
pub fn items_add_up()
    ensures items { ItemsAddUp }
    ensures logs { LogsHold }
{}

/// What a sender's output delay tells of its later items has all that the laws ask of a plan's `first`:
/// docs/RULES.md, Grants.
pub fn first_laws()
    ensures { FirstLaws }
{}

/// The steps of moves of scripted federates, in order, are lawful, and lead to the same end. So these laws hold
/// of them: docs/RULES.md, Reference run.
pub fn moves_run()
    ensures { MovesRun }
{}

/// Two moves of different federates may be taken in either order, to the same end: docs/RULES.md, Reference run.
pub fn diamond()
    ensures { Diamond }
{}

/// From any state of a run all runs of scripts that go on until no federate may move end alike:
/// docs/RULES.md, Reference run.
pub fn one_end()
    ensures { OneEnd }
{}

/// From any state of a run from which a run of scripts ends, every order of moves ends there, in as many moves,
/// and the reference run is one of these orders: docs/RULES.md, Reference run.
pub fn orders_end()
    ensures orders { OrdersEnd }
    ensures reference { ReferenceEnds }
{}

/// From the opening all runs of scripts that go on until no federate may move end alike: docs/RULES.md,
/// Reference run.
pub fn one_answer()
    ensures { OneAnswer }
{}

/// Where a run of scripts goes on until no federate may move, none has failed and one is live then, two federates
/// that wait for current updates are each other's ancestors: docs/RULES.md, Grants.
pub fn stuck_waits()
    ensures { StuckWaits }
{}

/// A run of scripts up to its first failure is one of moves. Where none failed it is the reference run; and where a
/// federate is live then, two that wait for current updates are each other's ancestors: docs/RULES.md, Reference
/// run and Grants.
pub fn stops_at_failure()
    ensures { StopsAtFailure }
{}

/// Each run of scripts that goes on until no federate may move has the logs of the reference run, in which
/// always the least federate moves that may: docs/RULES.md, Reference run.
pub fn reference_logs()
    ensures { ReferenceLogs }
{}

/// The laws aren't empty: there is a plan that has what they need, a run of it that hands an item over, and a
/// grant on its way that would be early.
pub fn pair_runs()
    ensures { PairRuns }
{}
