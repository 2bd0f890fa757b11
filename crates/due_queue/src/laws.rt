// Laws of the orders of items and of queues.
ghost use Rattle.due_queue.specs.Laws.{CanonicalLaws, QueueLaws};

/// The items to all federates in canonical order: insertions commute, and those to one federate
/// are a queue.
pub fn canonical_laws()
    ensures { CanonicalLaws }
{}

/// A queue's order, and what a queue holds after any calls.
pub fn queue_laws()
    ensures { QueueLaws }
{}
