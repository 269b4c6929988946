// Laws of all answers: those with given lists of members are well formed. Each function's contract is a law.
ghost use Rattle.answers.specs.GivenLists.{GivenIsWell};

/// Lists of distinct members, below the number of the next one and none in two of them, make answers that are well
/// formed.
pub fn given_lists_are_well_formed()
    ensures { GivenIsWell }
{}
