// Laws of the rules of paths: their tests say what the rules say in their own words, and the fact that is named is the first.
// Each function's contract is a law.
ghost use Rattle.dict_rules.specs.FirstFact.{FirstIsLeast, NonePasses};
ghost use Rattle.dict_rules.specs.RuleWords.{BadPathsAreByRule, NoCollectionsAreByRule, UnknownPathsAreByRule, WrongPlacesAreByRule};

/// The fact that breaks a rule and is named is the first that does.
pub fn the_first_is_least()
    ensures least { FirstIsLeast }
    ensures none { NonePasses }
{}

/// The tests of the rules of paths hold exactly where the rules, in their own words, are broken.
pub fn tests_say_the_rules()
    ensures bad_path { BadPathsAreByRule }
    ensures no_collection { NoCollectionsAreByRule }
    ensures unknown_path { UnknownPathsAreByRule }
    ensures wrong_place { WrongPlacesAreByRule }
{}
