// Laws of typed dictionaries: types are found exactly where all rules are kept, and the fault that is named is the first. Each
// function's contract is a law.
ghost use Rattle.dict_types.specs.BadLimit.{BadLimitsAreByRule};
ghost use Rattle.dict_types.specs.DictFaults.{FaultIsFirst, FirstIsNamed, TypedIsWellTyped, WellTypedIsFound};

/// Types are found exactly of a dictionary that keeps all rules, each of whose expressions has its type.
pub fn typed_is_well_typed()
    ensures right { TypedIsWellTyped }
    ensures all { WellTypedIsFound }
{}

/// The fault that is named is exactly the first: by its rule, then by the fact, then by the node.
pub fn the_fault_is_first()
    ensures first { FaultIsFirst }
    ensures named { FirstIsNamed }
{}

/// The test of limits holds exactly where their rule, in its own words, is broken.
pub fn the_test_says_the_rule_of_limits()
    ensures { BadLimitsAreByRule }
{}
