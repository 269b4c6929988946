// Laws of the rules. Each function's contract is the theorem.
ghost use Rattle.three_state.specs.Equality.{ResSameIsEqual, ValueSameIsEqual};
ghost use Rattle.three_state.specs.Laws.{CompleteStrict, DownIsNeverComplete, DownTwiceIsDown, FilterStarts, IncompleteStays, JunctionGoesOn, JunctionOfComplete, JunctionOfSeen, JunctionStarts, StrictOfComplete, SwitchGoesOn, SwitchStarts, VerdictGoesOn, VerdictStarts};
ghost use Rattle.three_state.specs.Order.{CaseKeeps, FieldsKeep, FilterKeeps, FindKeeps, JunctionKeeps, StrictKeeps, SwitchKeeps, ThroughKeeps};

/// The tests of two values and of two results say whether they are equal.
pub fn same_is_equal()
    ensures value { ValueSameIsEqual }
    ensures res { ResSameIsEqual }
{}

/// What rests on a placeholder isn't complete.
pub fn down_is_never_complete()
    ensures never { DownIsNeverComplete }
    ensures twice { DownTwiceIsDown }
{}

/// All and Any of complete operands are complete.
pub fn junctions_of_complete_are_complete()
    ensures { JunctionOfComplete }
{}

/// A strict operation with a value is complete exactly where its operands are.
pub fn strict_of_complete_is_complete()
    ensures complete { StrictOfComplete }
    ensures only { CompleteStrict }
{}

/// An All or an Any in a loop: it starts with no operand, and what was seen counts as one.
pub fn junctions_go_on()
    ensures start { JunctionStarts }
    ensures next { JunctionGoesOn }
    ensures seen { JunctionOfSeen }
{}

/// The verdict on the operands of a strict operation in a loop.
pub fn verdicts_go_on()
    ensures start { VerdictStarts }
    ensures next { VerdictGoesOn }
    ensures incomplete { IncompleteStays }
{}

/// A Switch, and so a Find, in a loop over its cases.
pub fn switches_go_on()
    ensures start { SwitchStarts }
    ensures next { SwitchGoesOn }
{}

/// A Filter in a loop over the members.
pub fn filters_go_on()
    ensures { FilterStarts }
{}

/// Where operands that aren't complete become others, a complete outcome stays as it was.
pub fn complete_outcomes_stay()
    ensures junction { JunctionKeeps }
    ensures strict { StrictKeeps }
    ensures through { ThroughKeeps }
    ensures case { CaseKeeps }
    ensures switch { SwitchKeeps }
    ensures filter { FilterKeeps }
    ensures find { FindKeeps }
    ensures fields { FieldsKeep }
{}
