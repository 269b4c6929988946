// Laws of extensions: a test tells whether answers extend others. Each function's contract is a law.
ghost use Rattle.dict_meaning.specs.Extension.{TestTellsExtends};

/// Of answers that fit an accepted dictionary, the test over the slots that stand tells whether some extend others.
pub fn extensions_are_tested()
    ensures { TestTellsExtends }
{}
