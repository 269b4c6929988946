// Laws of the nodes that are visited: as many over any results of lower facts, and at most as many as the slot weighs. Each
// function's contract is a law.
ghost use Rattle.visit_counts.specs.SlotVisits.{SlotVisitsWithinWeight, VisitsOverLower};

/// Over any results that have plain evaluation of the facts of lower rank, the evaluation of a slot visits
/// as many nodes as over plain evaluation, and at most as many as the slot weighs.
pub fn slots_visit_as_many_over_lower_facts()
    ensures lower { VisitsOverLower }
    ensures most { SlotVisitsWithinWeight }
{}
