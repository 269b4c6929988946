// Laws of plain evaluation: it is one step over itself, the facts of lower rank are enough for it, and slots that stand have
// results. Each function's contract is a law.
ghost use Rattle.dict_meaning.specs.Plain.{JoinedByRank, PlainIsRecursive, StandingHaveResults, StepOverLower};

/// Plain evaluation is one step over itself.
pub fn plain_evaluation_is_recursive()
    ensures { PlainIsRecursive }
{}

/// Exactly the slots that stand have a result.
pub fn standing_slots_have_results()
    ensures { StandingHaveResults }
{}

/// A slot's result over any map that has plain evaluation of the facts of lower rank is plain evaluation.
pub fn lower_facts_are_enough()
    ensures { StepOverLower }
{}

/// Where each slot has its known value over known values of lower rank, plain evaluation has them all.
pub fn known_values_are_joined_by_rank()
    ensures { JoinedByRank }
{}
