// Laws of steady facts: a test by rank tells which are. Each function's contract is a law.
ghost use Rattle.dict_meaning.specs.Steady.{StepTellsSteady, TestTellsSteady};

/// The test of a steady fact, by rank, tells. A fact is steady where its body has no IsComplete and all that it mentions is
/// steady.
pub fn the_test_tells_steady()
    ensures tells { TestTellsSteady }
    ensures step { StepTellsSteady }
{}
