// The type of a node, from the types of its operands.
ghost use Rattle.std.specs.Prelude.{◌≡◌, if◌then◌else◌, Some, None};
ghost use Rattle.std.specs.List.{list_all};
ghost use Rattle.fact_values.specs.declared.fact_type.FactType.TheVariants as types;
ghost use Rattle.dict_source.specs.OperandTypes as table;
ghost use Rattle.dict_source.specs.Tables.{is_fit};
ghost use Rattle.node_types.specs.CaseTypes.{fits as fitting, picked_type as type_picked, switch_type as type_of_switch};
ghost use Rattle.node_types.specs.ListSizes.{list_sizes};

use crate::table_types::value_type;
use dict_source::{ManyOp, OneOp, PickOp, TwoOp};
use fact_values::FactType;
use value_text::EnumLists;

/// The types of a case: of its test, and of its outcome.
#[derive(Clone, Copy, PartialEq, Eq)]
pub struct CaseType {
    pub test: FactType,
    pub outcome: FactType,
}

// ---- kinds of types

/// Whether the two are one type.
pub fn is_same(left: FactType, right: FactType) -> bool
    ensures { result ≡ table.same_type left right }
{
    left == right
}

fn is_ordered(of: FactType) -> bool
    ensures { result ≡ table.is_ordered of }
{
    matches!(
        of,
        FactType::Int | FactType::Dollar | FactType::Rational | FactType::Day
    )
}

fn is_compared(of: FactType) -> bool
    ensures { result ≡ table.is_compared of }
{
    !matches!(of, FactType::Collection(_) | FactType::Item(_))
}

// ---- any number of operands

fn are_all(want: FactType, types: &[FactType]) -> bool
    ensures { result ≡ list_all (table.same_type want) types.now }
{
    types.iter().all(|found| is_same(want, *found))
}

// The type that all of them have.
fn common_type(types: &[FactType]) -> Option<FactType>
    ensures { result ≡ table.common_type types.now }
{
    match types {
        [] => None,
        [first, rest @ ..] => {
            if are_all(*first, rest) {
                Some(*first)
            } else {
                None
            }
        }
    }
}

// So many operands of the type.
fn type_of_many(op: ManyOp, count: usize, of: FactType) -> Option<FactType>
    ensures { result ≡ table.type_of_many op count of }
{
    match (op, of) {
        (ManyOp::All | ManyOp::Any, FactType::Boolean) => Some(of),
        (ManyOp::Add, FactType::Int | FactType::Dollar) => Some(of),
        (ManyOp::Subtract, FactType::Int | FactType::Dollar) if count >= 2 => Some(of),
        (ManyOp::Add | ManyOp::Subtract, FactType::Rational) if count == 2 => Some(of),
        (ManyOp::GreaterOf | ManyOp::LesserOf, _) if is_ordered(of) => Some(of),
        _ => None,
    }
}

/// From the types of any number of operands.
pub fn many_type(op: ManyOp, operands: &[FactType]) -> Option<FactType>
    ensures { result ≡ table.many_type op operands.now }
{
    type_of_many(op, operands.len(), common_type(operands)?)
}

// ---- one operand

/// From the type of the operand.
pub fn one_type(enums: &EnumLists, op: &OneOp, of: FactType) -> Option<FactType>
    ensures { result ≡ table.one_type (is_fit (list_sizes enums.now)) op.now of }
{
    match (op, of) {
        (OneOp::Not, FactType::Boolean) => Some(FactType::Boolean),
        (OneOp::Round, FactType::Dollar) => Some(FactType::Dollar),
        (OneOp::YearOf | OneOp::MonthOf | OneOp::DayOf, FactType::Day) => Some(FactType::Int),
        (OneOp::Lookup(table), _) => value_type(enums, table, of),
        _ => None,
    }
}

// ---- two operands

fn product_type(left: FactType, right: FactType) -> Option<FactType>
    ensures { result ≡ table.product_type left right }
{
    match (left, right) {
        (FactType::Int, FactType::Int) => Some(FactType::Int),
        (FactType::Int | FactType::Rational, FactType::Dollar) => Some(FactType::Dollar),
        (FactType::Dollar, FactType::Int | FactType::Rational) => Some(FactType::Dollar),
        (FactType::Int | FactType::Rational, FactType::Rational) => Some(FactType::Rational),
        (FactType::Rational, FactType::Int) => Some(FactType::Rational),
        _ => None,
    }
}

fn quotient_type(left: FactType, right: FactType) -> Option<FactType>
    ensures { result ≡ table.quotient_type left right }
{
    match (left, right) {
        (FactType::Int, FactType::Int) => Some(FactType::Rational),
        (FactType::Rational, FactType::Rational) => Some(FactType::Rational),
        (FactType::Dollar, FactType::Int) => Some(FactType::Dollar),
        (FactType::Dollar, FactType::Rational) => Some(FactType::Dollar),
        (FactType::Dollar, FactType::Dollar) => Some(FactType::Rational),
        _ => None,
    }
}

fn later_day_type(left: FactType, right: FactType) -> Option<FactType>
    ensures { result ≡ table.later_day_type left right }
{
    match (left, right) {
        (FactType::Day, FactType::Int) => Some(FactType::Day),
        _ => None,
    }
}

fn between_type(left: FactType, right: FactType) -> Option<FactType>
    ensures { result ≡ table.between_type left right }
{
    match (left, right) {
        (FactType::Day, FactType::Day) => Some(FactType::Int),
        _ => None,
    }
}

fn multiple_type(left: FactType, right: FactType) -> Option<FactType>
    ensures { result ≡ table.multiple_type left right }
{
    match (left, right) {
        (FactType::Dollar | FactType::Rational, FactType::Dollar) => Some(FactType::Dollar),
        _ => None,
    }
}

fn boolean_where(holds: bool) -> Option<FactType>
    ensures { result ≡ (if holds then Some types.Boolean else None) }
{
    if holds { Some(FactType::Boolean) } else { None }
}

/// From the types of the left operand and of the right one.
pub fn two_type(op: TwoOp, left: FactType, right: FactType) -> Option<FactType>
    ensures { result ≡ table.two_type op left right }
{
    match op {
        TwoOp::Multiply => product_type(left, right),
        TwoOp::Divide => quotient_type(left, right),
        TwoOp::AddDays | TwoOp::AddMonths | TwoOp::AddYears => later_day_type(left, right),
        TwoOp::DaysBetween | TwoOp::AgeOn => between_type(left, right),
        TwoOp::RoundUp | TwoOp::RoundDown | TwoOp::RoundNearest => multiple_type(left, right),
        TwoOp::Equal | TwoOp::NotEqual => boolean_where(is_compared(left) && is_same(left, right)),
        TwoOp::GreaterThan | TwoOp::LessThan | TwoOp::GreaterThanOrEqual | TwoOp::LessThanOrEqual =>
            boolean_where(is_ordered(left) && is_same(left, right)),
    }
}

// ---- cases, and members of a collection

// Whether the case's test is Boolean, and its outcome of the type.
fn fits(outcome: FactType, case: CaseType) -> bool
    ensures { result ≡ fitting outcome case }
{
    is_same(case.test, FactType::Boolean) && is_same(outcome, case.outcome)
}

fn fit(outcome: FactType, cases: &[CaseType]) -> bool
    ensures { result ≡ list_all (fitting outcome) cases.now }
{
    cases.iter().all(|case| fits(outcome, *case))
}

/// From the types of the cases.
pub fn switch_type(cases: &[CaseType]) -> Option<FactType>
    ensures { result ≡ type_of_switch cases.now }
{
    if cases.is_empty() {
        return None;
    }
    let outcome = cases[0].outcome;
    if fit(outcome, cases) {
        Some(outcome)
    } else {
        None
    }
}

fn base_type(op: PickOp, base: u32) -> FactType
    ensures { result ≡ table.pick_type op base }
{
    match op {
        PickOp::Filter => FactType::Collection(base),
        PickOp::Find => FactType::Item(base),
    }
}

/// From the collection's base, where it is known, and the condition's type.
pub fn picked_type(op: PickOp, base: Option<u32>, test: FactType) -> Option<FactType>
    ensures { result ≡ type_picked op base test }
{
    if !is_same(test, FactType::Boolean) {
        return None;
    }
    Some(base_type(op, base?))
}
