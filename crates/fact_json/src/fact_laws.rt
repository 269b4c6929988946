// Laws of reading and spelling expressions and facts. Each function's contract is a law.
ghost use Rattle.fact_json.specs.FactLaws.{ReadFactIsSpelled, ReadIsSpelled, ReadIsWellFormed, SpelledFactIsRead, SpelledIsRead};

/// An expression is read of a JSON value exactly where the value spells it.
pub fn expressions_are_spelled()
    ensures spelled { ReadIsSpelled }
    ensures read { SpelledIsRead }
{}

/// A fact is read of a JSON value exactly where the value spells it.
pub fn facts_are_spelled()
    ensures spelled { ReadFactIsSpelled }
    ensures read { SpelledFactIsRead }
{}

/// A fact that is read of a JSON value is well formed.
pub fn facts_are_well_formed()
    ensures { ReadIsWellFormed }
{}
