// Laws of reading and spelling lists of options, tables and dictionaries. Each function's contract is a law.
ghost use Rattle.dict_tree.specs.Laws.{GivenIsRead, ReadEnumIsSpelled, ReadIsGiven, ReadTableIsSpelled, SpelledEnumIsRead, SpelledTableIsRead};

/// A list of options is read of a JSON value exactly where the value spells it.
pub fn enums_are_spelled()
    ensures spelled { ReadEnumIsSpelled }
    ensures read { SpelledEnumIsRead }
{}

/// A table is read of a JSON value exactly where the value spells it.
pub fn tables_are_spelled()
    ensures spelled { ReadTableIsSpelled }
    ensures read { SpelledTableIsRead }
{}

/// What is read of a JSON value is what the value gives: the dictionary that it spells, where that keeps the limits, or
/// the first fault.
pub fn dictionaries_are_spelled()
    ensures given { ReadIsGiven }
    ensures read { GivenIsRead }
{}
