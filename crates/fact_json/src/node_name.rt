// The names of nodes in JSON.
ghost use Rattle.std.specs.Prelude.{◌≡◌, drop};
ghost use Rattle.fact_json.specs.Names.{node_named, node_names, op_of_name, under_name};

use dict_source::{ManyOp, OneOp, PickOp, ReadOp, TwoOp};

/// The kinds of constant.
#[derive(Clone, Copy, PartialEq, Eq)]
pub enum ConstantName {
    True,
    False,
    Int,
    Dollar,
    Rational,
    Day,
    Text,
    Enum,
}

/// The operations on one operand that a name alone stands for.
#[derive(Clone, Copy, PartialEq, Eq)]
pub enum OneName {
    Not,
    Round,
    YearOf,
    MonthOf,
    DayOf,
}

/// The operation of this name.
pub fn op_of_name(name: OneName) -> OneOp
    ensures { result ≡ op_of_name name }
{
    match name {
        OneName::Not => OneOp::Not,
        OneName::Round => OneOp::Round,
        OneName::YearOf => OneOp::YearOf,
        OneName::MonthOf => OneOp::MonthOf,
        OneName::DayOf => OneOp::DayOf,
    }
}

/// The node that a name stands for.
#[derive(Clone, Copy, PartialEq, Eq)]
pub enum NodeName {
    Constant(ConstantName),
    Read(ReadOp),
    Switch,
    Many(ManyOp),
    One(OneName),
    Two(TwoOp),
    Pick(PickOp),
    /// Of a table.
    Lookup,
}

// The node of this name, among those of the law profile.
fn name_of_law(name: &str) -> Option<NodeName>
    ensures { result ≡ under_name name.now (drop 34 node_names) }
{
    match name {
        "MonthOf" => Some(NodeName::One(OneName::MonthOf)),
        "DayOf" => Some(NodeName::One(OneName::DayOf)),
        "AddMonths" => Some(NodeName::Two(TwoOp::AddMonths)),
        "AddYears" => Some(NodeName::Two(TwoOp::AddYears)),
        "DaysBetween" => Some(NodeName::Two(TwoOp::DaysBetween)),
        "AgeOn" => Some(NodeName::Two(TwoOp::AgeOn)),
        "RoundUp" => Some(NodeName::Two(TwoOp::RoundUp)),
        "RoundDown" => Some(NodeName::Two(TwoOp::RoundDown)),
        "RoundNearest" => Some(NodeName::Two(TwoOp::RoundNearest)),
        "Lookup" => Some(NodeName::Lookup),
        _ => None,
    }
}

// The node of this name, among comparisons and those behind them.
fn name_of_comparison(name: &str) -> Option<NodeName>
    ensures { result ≡ under_name name.now (drop 23 node_names) }
{
    match name {
        "Equal" => Some(NodeName::Two(TwoOp::Equal)),
        "NotEqual" => Some(NodeName::Two(TwoOp::NotEqual)),
        "GreaterThan" => Some(NodeName::Two(TwoOp::GreaterThan)),
        "LessThan" => Some(NodeName::Two(TwoOp::LessThan)),
        "GreaterThanOrEqual" => Some(NodeName::Two(TwoOp::GreaterThanOrEqual)),
        "LessThanOrEqual" => Some(NodeName::Two(TwoOp::LessThanOrEqual)),
        "Round" => Some(NodeName::One(OneName::Round)),
        "YearOf" => Some(NodeName::One(OneName::YearOf)),
        "AddDays" => Some(NodeName::Two(TwoOp::AddDays)),
        "Filter" => Some(NodeName::Pick(PickOp::Filter)),
        "Find" => Some(NodeName::Pick(PickOp::Find)),
        _ => name_of_law(name),
    }
}

// The node of this name, among those whose operands are expressions.
fn name_of_operator(name: &str) -> Option<NodeName>
    ensures { result ≡ under_name name.now (drop 14 node_names) }
{
    match name {
        "All" => Some(NodeName::Many(ManyOp::All)),
        "Any" => Some(NodeName::Many(ManyOp::Any)),
        "Not" => Some(NodeName::One(OneName::Not)),
        "Add" => Some(NodeName::Many(ManyOp::Add)),
        "Subtract" => Some(NodeName::Many(ManyOp::Subtract)),
        "Multiply" => Some(NodeName::Two(TwoOp::Multiply)),
        "Divide" => Some(NodeName::Two(TwoOp::Divide)),
        "GreaterOf" => Some(NodeName::Many(ManyOp::GreaterOf)),
        "LesserOf" => Some(NodeName::Many(ManyOp::LesserOf)),
        _ => name_of_comparison(name),
    }
}

/// The node of this name.
pub fn name_of_node(name: &str) -> Option<NodeName>
    ensures { result ≡ node_named name.now }
{
    match name {
        "True" => Some(NodeName::Constant(ConstantName::True)),
        "False" => Some(NodeName::Constant(ConstantName::False)),
        "Int" => Some(NodeName::Constant(ConstantName::Int)),
        "Dollar" => Some(NodeName::Constant(ConstantName::Dollar)),
        "Rational" => Some(NodeName::Constant(ConstantName::Rational)),
        "Day" => Some(NodeName::Constant(ConstantName::Day)),
        "Text" => Some(NodeName::Constant(ConstantName::Text)),
        "Enum" => Some(NodeName::Constant(ConstantName::Enum)),
        "Dependency" => Some(NodeName::Read(ReadOp::Dependency)),
        "IsComplete" => Some(NodeName::Read(ReadOp::IsComplete)),
        "CollectionSize" => Some(NodeName::Read(ReadOp::CollectionSize)),
        "CollectionSum" => Some(NodeName::Read(ReadOp::CollectionSum)),
        "Count" => Some(NodeName::Read(ReadOp::Count)),
        "Switch" => Some(NodeName::Switch),
        _ => name_of_operator(name),
    }
}
