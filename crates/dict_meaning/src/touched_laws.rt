// Laws of what a change touches: every other slot keeps its result. Each function's contract is a law.
ghost use Rattle.dict_meaning.specs.Touched.{UntouchedKeeps};

/// A slot that stands and that a change doesn't touch keeps its result.
pub fn untouched_slots_keep_their_results()
    ensures { UntouchedKeeps }
{}
