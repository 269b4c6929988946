// Laws of the definitions that reading and printing cite. Each function's contract is one.
ghost use Rattle.value_text.specs.ValueLaws.{PrintedAgainIsSame, PrintedIsSpelled, ReadsWhatIsPrinted, ReadsWhatIsSpelled, SpelledIsOfType, SpellsNoMembers, SpellsOneValue};

/// The printed text of a value spells it.
pub fn printed_value_is_spelled()
    ensures { PrintedIsSpelled }
{}

/// What a text spells is a value of the type.
pub fn spelled_value_is_of_the_type()
    ensures { SpelledIsOfType }
{}

/// No text spells two values of a type.
pub fn spells_one_value()
    ensures { SpellsOneValue }
{}

/// A text spells a value exactly where reading the text gives that value.
pub fn reads_spelled_values()
    ensures { ReadsWhatIsSpelled }
{}

/// Reading what was printed gives the value back.
pub fn reads_printed_values()
    ensures { ReadsWhatIsPrinted }
{}

/// What is read and printed again is the canonical text, which reading and printing leave.
pub fn canonical_text_stays()
    ensures { PrintedAgainIsSame }
{}

/// No text spells a list of members, or a member.
pub fn spells_no_members()
    ensures { SpellsNoMembers }
{}
