// Laws of evaluation: what decides a result, its type, its work and what stays complete. Each function's contract is a law. The
// type parameters are those of the tree (constants C, reads R and collections P), the places S, the bases of conditions B and
// what is read X.
ghost use Rattle.evaluation.specs.Agreement.{Coincidence, WeightCoincidence};
ghost use Rattle.evaluation.specs.Completes.{CompleteCount, CompleteMany, CompleteOne, CompletePick, CompleteSize, CompleteSum, CompleteSwitch, CompleteThroughItem, CompleteTwo, DownNeverCompletes};
ghost use Rattle.evaluation.specs.ByBases.{CoincidenceIn, CompleteStaysIn, WeightCoincidenceIn};
ghost use Rattle.evaluation.specs.Extremes.{GreatestIsGreatest, LeastIsLeast};
ghost use Rattle.evaluation.specs.Order.{CompleteStays, CompleteStaysTested};
ghost use Rattle.evaluation.specs.Resolving.{ResolvedGives, ResolvedReads, ResolvedWeighs};
ghost use Rattle.evaluation.specs.SlotsRead.{ReadsDecide};
ghost use Rattle.evaluation.specs.Sure.{SureFind, Sureness};
ghost use Rattle.evaluation.specs.Typed.{CountTyped, ItemTyped, SizeTyped, SumTyped, TestTyped, Typed};
ghost use Rattle.evaluation.specs.Visits.{ResolvedVisits, SomeVisit, VisitCoincidence, VisitCoincidenceIn, VisitsWithinWeight};

/// An expression has one result, and one weight, in two environments that agree on all that it can read from its place.
pub fn agreement_is_enough<C, R, P, S>()
    ensures result { Coincidence C R P S }
    ensures weight { WeightCoincidence C R P S }
{}

/// So also where they agree on what the expression names, at the places that may be reached under the base of each condition.
pub fn agreement_by_bases_is_enough<B, C, R, P, S>()
    ensures result { CoincidenceIn B C R P S }
    ensures weight { WeightCoincidenceIn B C R P S }
{}

/// What the evaluation of an expression reads decides its result.
pub fn reads_decide<C, R, P, S, X>()
    ensures { ReadsDecide C R P S X }
{}

/// An expression that is complete in one environment has the same result in another that keeps the complete results of what it reads.
pub fn complete_results_stay<C, R, P, S>()
    ensures stays { CompleteStays C R P S }
    ensures tested { CompleteStaysTested C R P S }
{}

/// So also where that holds of what the expression names, at the places that may be reached under the base of each condition.
pub fn complete_results_stay_by_bases<B, C, R, P, S>()
    ensures { CompleteStaysIn B C R P S }
{}

/// A complete result of a node rests on complete ones: those of its operands that decided it.
pub fn complete_results_rest_on_complete_ones<C, R, P, S>()
    ensures down { DownNeverCompletes C R P S }
    ensures many { CompleteMany C R P S }
    ensures one { CompleteOne C R P S }
    ensures two { CompleteTwo C R P S }
    ensures switch { CompleteSwitch C R P S }
    ensures pick { CompletePick C R P S }
    ensures item { CompleteThroughItem }
    ensures size { CompleteSize }
    ensures sum { CompleteSum }
    ensures count { CompleteCount }
{}

/// A tree whose names were resolved gives, weighs and reads what the tree does in the environment that resolves them.
pub fn resolving_keeps<B, C, R, P, ToC, ToR, ToP, S, X>()
    ensures result { ResolvedGives B C R P ToC ToR ToP S }
    ensures weight { ResolvedWeighs B C R P ToC ToR ToP S }
    ensures reads { ResolvedReads B C R P ToC ToR ToP S X }
{}

/// An expression of which all is known is complete with the value that it has without states.
pub fn known_expressions_are_complete<C, R, P, S>()
    ensures sure { Sureness C R P S }
    ensures find { SureFind C R P S }
{}

/// A typed expression gives a value of its type, where what it reads does; and so do the nodes that read.
pub fn typed_expressions_give_their_types<C, R, P, S>()
    ensures typed { Typed C R P S }
    ensures item { ItemTyped }
    ensures test { TestTyped }
    ensures size { SizeTyped }
    ensures sum { SumTyped }
    ensures count { CountTyped }
{}

/// GreaterOf and LesserOf give one of their operands, and none is greater, or none is less.
pub fn extremes_are_of_the_operands()
    ensures greatest { GreatestIsGreatest }
    ensures least { LeastIsLeast }
{}

/// An evaluation visits a node at least, and at most as many as the weight of the expression.
pub fn visits_are_within_the_weight<C, R, P, S>()
    ensures some { SomeVisit C R P S }
    ensures most { VisitsWithinWeight C R P S }
{}

/// As many nodes are visited in two environments that agree, by places or by bases, and of a tree
/// whose names were resolved as of the tree.
pub fn visits_follow_the_result<B, C, R, P, ToC, ToR, ToP, S>()
    ensures agreement { VisitCoincidence C R P S }
    ensures bases { VisitCoincidenceIn B C R P S }
    ensures resolved { ResolvedVisits B C R P ToC ToR ToP S }
{}
