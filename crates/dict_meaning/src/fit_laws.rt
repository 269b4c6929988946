// Laws of answers that fit a dictionary: those at the start, given lists, and those after an allowed change do. Each function's
// contract is a law.
ghost use Rattle.dict_meaning.specs.Allowed.{AllowedChangesFit, GivenFit, StartFits};

/// The answers at the start fit every dictionary.
pub fn the_start_fits()
    ensures { StartFits }
{}

/// After a change that a command may make, answers that fitted an accepted dictionary still fit it.
pub fn allowed_changes_fit()
    ensures { AllowedChangesFit }
{}

/// Given lists of Writable collections make answers that fit.
pub fn given_lists_fit()
    ensures { GivenFit }
{}
