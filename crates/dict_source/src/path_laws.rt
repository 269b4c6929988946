// Laws of paths: which facts each form names, the first of those with one path, and where it names none. Each function's contract
// is a law.
ghost use Rattle.dict_source.specs.PathLaws.{EachRow, FindsNothing, FindsTheFirst, FirstIsThere, GlobalRow, InnerNowhere, InnerRow, SiblingNowhere, SiblingRow, SiblingThroughNowhere, SiblingThroughRow, ThroughRow};

/// What is found by a path is the first fact that has it.
pub fn the_first_is_found()
    ensures first { FindsTheFirst }
    ensures nothing { FindsNothing }
    ensures there { FirstIsThere }
{}

/// The facts that each form of a use path names.
pub fn targets_go_by_the_form()
    ensures global { GlobalRow }
    ensures sibling { SiblingRow }
    ensures inner { InnerRow }
    ensures each { EachRow }
    ensures through { ThroughRow }
    ensures sibling_through { SiblingThroughRow }
{}

/// Where a use path names no fact.
pub fn targets_are_none_elsewhere()
    ensures sibling { SiblingNowhere }
    ensures sibling_through { SiblingThroughNowhere }
    ensures inner { InnerNowhere }
{}
