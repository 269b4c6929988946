// Laws of weights: a Filter or a Find weighs by the members of its collection. Each function's contract is a law.
ghost use Rattle.dict_meaning.specs.Weights.{PickWeighs};

/// A Filter or a Find weighs 1, and what its condition weighs as often as its collection has members.
pub fn filters_weigh_by_their_members()
    ensures { PickWeighs }
{}
