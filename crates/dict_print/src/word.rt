// The names of nodes, as they are printed.
ghost use Rattle.std.specs.Prelude.{◌≡◌};
ghost use Rattle.fact_json.specs.Names.{many_name, one_name, pick_name, read_name, two_name};

use dict_source::{ManyOp, OneOp, PickOp, ReadOp, TwoOp};

/// The name of a node that reads a path.
pub fn word_of_read(op: ReadOp) -> &'static str
    ensures { result.now ≡ read_name op }
{
    match op {
        ReadOp::Dependency => "Dependency",
        ReadOp::IsComplete => "IsComplete",
        ReadOp::CollectionSize => "CollectionSize",
        ReadOp::CollectionSum => "CollectionSum",
        ReadOp::Count => "Count",
    }
}

/// The name of a node with a list of operands.
pub fn word_of_many(op: ManyOp) -> &'static str
    ensures { result.now ≡ many_name op }
{
    match op {
        ManyOp::All => "All",
        ManyOp::Any => "Any",
        ManyOp::Add => "Add",
        ManyOp::Subtract => "Subtract",
        ManyOp::GreaterOf => "GreaterOf",
        ManyOp::LesserOf => "LesserOf",
    }
}

/// The name of a node with one operand.
pub fn word_of_one(op: &OneOp) -> &'static str
    ensures { result.now ≡ one_name op.now }
{
    match op {
        OneOp::Not => "Not",
        OneOp::Round => "Round",
        OneOp::YearOf => "YearOf",
        OneOp::MonthOf => "MonthOf",
        OneOp::DayOf => "DayOf",
        OneOp::Lookup(_) => "Lookup",
    }
}

/// The name of a node with two operands.
pub fn word_of_two(op: TwoOp) -> &'static str
    ensures { result.now ≡ two_name op }
{
    match op {
        TwoOp::Multiply => "Multiply",
        TwoOp::Divide => "Divide",
        TwoOp::Equal => "Equal",
        TwoOp::NotEqual => "NotEqual",
        TwoOp::GreaterThan => "GreaterThan",
        TwoOp::LessThan => "LessThan",
        TwoOp::GreaterThanOrEqual => "GreaterThanOrEqual",
        TwoOp::LessThanOrEqual => "LessThanOrEqual",
        TwoOp::AddDays => "AddDays",
        TwoOp::AddMonths => "AddMonths",
        TwoOp::AddYears => "AddYears",
        TwoOp::DaysBetween => "DaysBetween",
        TwoOp::AgeOn => "AgeOn",
        TwoOp::RoundUp => "RoundUp",
        TwoOp::RoundDown => "RoundDown",
        TwoOp::RoundNearest => "RoundNearest",
    }
}

/// The name of a node that picks of a collection.
pub fn word_of_pick(op: PickOp) -> &'static str
    ensures { result.now ≡ pick_name op }
{
    match op {
        PickOp::Filter => "Filter",
        PickOp::Find => "Find",
    }
}
