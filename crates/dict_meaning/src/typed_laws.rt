// Laws of the types of results: plain evaluation gives values of the facts' types. Each function's contract is a law.
ghost use Rattle.dict_meaning.specs.TypedResults.{TypedResults};

/// In an accepted dictionary, over answers that fit it, plain evaluation gives values of the facts' types.
pub fn results_have_their_types()
    ensures { TypedResults }
{}
