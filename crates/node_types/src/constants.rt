// The types and values of constants.
ghost use Rattle.std.specs.Prelude.{◌≡◌, ◌++◌, ◌∷◌, [], option_map, IfOk, None, OnOk};
ghost use Rattle.value_text.specs.Enums.{list_place};
ghost use Rattle.value_text.specs.Values.{Gives};
ghost use Rattle.dict_source.specs.Facts.{conditional_view, fact_view};
ghost use Rattle.dict_source.specs.View.{cases_view, literal_of, trees_view, view};
ghost use Rattle.node_types.specs.Constants.{case_values, choice_value, conditional_values, fact_values as values_of_fact, literal_type, literal_value, option_values, tree_values, value_type as type_of_value, values_of};
ghost use Rattle.node_types.specs.Inferring.{Infers, or_fault};

use crate::node_fault::NodeFault;
use dict_source::{Case, Conditional, Constant, Expr, FactSource};
use fact_values::{FactType, NoMemory, Value};
use std::alloc::{AllocError, Global};
use value_text::{EnumLists, TextFault, read};

fn choice(enums: &EnumLists, list: &str, option: &str) -> Option<Value>
    ensures { result ≡ choice_value enums.now (list_place list.now enums.now) option.now }
{
    let list = enums.find(list)?;
    let place = enums.option_place(list, option)?;
    Some(Value::Choice(list, place))
}

fn choice_or_fault(enums: &EnumLists, list: &str, option: &str) -> Result<Value, TextFault>
    ensures { Gives (choice_value enums.now (list_place list.now enums.now) option.now) result }
{
    match choice(enums, list, option) {
        None => Err(TextFault::BadValue),
        Some(value) => Ok(value),
    }
}

// The value that a constant's text spells.
fn read_constant(alloc: Global, enums: &EnumLists, constant: &Constant) -> Result<Value, TextFault>
    ensures { Gives (literal_value enums.now (literal_of constant.now)) result }
{
    match constant {
        Constant::True => Ok(Value::Boolean(true)),
        Constant::False => Ok(Value::Boolean(false)),
        Constant::Int(text) => read(alloc, FactType::Int, enums, text.as_str()),
        Constant::Dollar(text) => read(alloc, FactType::Dollar, enums, text.as_str()),
        Constant::Rational(text) => read(alloc, FactType::Rational, enums, text.as_str()),
        Constant::Day(text) => read(alloc, FactType::Day, enums, text.as_str()),
        Constant::Text(text) => read(alloc, FactType::Text, enums, text.as_str()),
        Constant::Choice(list, option) => choice_or_fault(enums, list.as_str(), option.as_str()),
    }
}

fn value_type(value: &Value) -> Option<FactType>
    ensures { result ≡ type_of_value value.now }
{
    match value {
        Value::Boolean(_) => Some(FactType::Boolean),
        Value::Int(_) => Some(FactType::Int),
        Value::Dollar(_) => Some(FactType::Dollar),
        Value::Rational(_) => Some(FactType::Rational),
        Value::Day(_) => Some(FactType::Day),
        Value::Text(_) => Some(FactType::Text),
        Value::Choice(list, _) => Some(FactType::Enum(*list)),
        Value::Members(_) => None,
        Value::Item(_) => None,
    }
}

fn type_or_fault(value: &Value, number: u32) -> Result<FactType, NodeFault>
    ensures { Infers (λ t. t) result (or_fault number (type_of_value value.now)) }
{
    match value_type(value) {
        None => Err(NodeFault::IllTyped(number)),
        Some(of) => Ok(of),
    }
}

/// The type of a constant, which is the node with this number.
pub fn constant_type(
    alloc: Global,
    enums: &EnumLists,
    constant: &Constant,
    number: u32,
) -> Result<FactType, NodeFault>
    ensures { Infers (λ t. t) result (or_fault number (literal_type enums.now (literal_of constant.now))) }
{
    match read_constant(alloc, enums, constant) {
        Ok(value) => type_or_fault(&value, number),
        Err(TextFault::BadValue) => Err(NodeFault::IllTyped(number)),
        Err(TextFault::NoMemory) => Err(NodeFault::NoMemory),
    }
}

// ---- the values of the constants among nodes

/// The value that a constant's text spells, or none where it spells none of the constant's type.
pub fn constant_value(
    alloc: Global,
    enums: &EnumLists,
    constant: &Constant,
) -> Result<Option<Value>, NoMemory>
    ensures { IfOk result (λ found. found ≡ literal_value enums.now (literal_of constant.now)) }
{
    match read_constant(alloc, enums, constant) {
        Ok(value) => Ok(Some(value)),
        Err(TextFault::BadValue) => Ok(None),
        Err(TextFault::NoMemory) => Err(NoMemory),
    }
}

fn note_constant(
    alloc: Global,
    enums: &EnumLists,
    constant: &Constant,
    out: &mut Vec<Option<Value>>,
) -> Result<(), NoMemory>
    ensures { OnOk result (out.new.items ≡ out.old.items ++ literal_value enums.now (literal_of constant.now) ∷ []) }
{
    let found = constant_value(alloc, enums, constant)?;
    out.push(found)?;
    Ok(())
}

fn note_none(out: &mut Vec<Option<Value>>) -> Result<(), NoMemory>
    ensures { OnOk result (out.new.items ≡ out.old.items ++ None ∷ []) }
{
    out.push(None)?;
    Ok(())
}

#[cycle(constants)]
#[tactic(auto, using(dict_source::proofs::Views::views))]
fn note_expr(
    alloc: Global,
    enums: &EnumLists,
    expr: &Expr,
    out: &mut Vec<Option<Value>>,
) -> Result<(), NoMemory>
    ensures { OnOk result (out.new.items ≡ out.old.items ++ values_of enums.now (view expr.now)) }
{
    match expr {
        Expr::Const(constant) => note_constant(alloc, enums, constant, out),
        Expr::Read(..) => note_none(out),
        Expr::Switch(cases) => {
            note_none(out)?;
            note_cases(alloc, enums, cases.as_slice(), out)
        }
        Expr::Many(_, operands) => {
            note_none(out)?;
            note_all(alloc, enums, operands.as_slice(), out)
        }
        Expr::One(_, operand) => {
            note_none(out)?;
            note_expr(alloc, enums, operand, out)
        }
        Expr::Two(_, left, right) => {
            note_none(out)?;
            note_expr(alloc, enums, left, out)?;
            note_expr(alloc, enums, right, out)
        }
        Expr::Pick(_, _, test) => {
            note_none(out)?;
            note_expr(alloc, enums, test, out)
        }
    }
}

#[cycle(constants)]
fn note_all(
    alloc: Global,
    enums: &EnumLists,
    operands: &[Expr],
    out: &mut Vec<Option<Value>>,
) -> Result<(), NoMemory>
    ensures { OnOk result (out.new.items ≡ out.old.items ++ tree_values enums.now (trees_view operands.now)) }
{
    for operand in operands {
        note_expr(alloc, enums, operand, out)?;
    }
    Ok(())
}

#[cycle(constants)]
fn note_cases(
    alloc: Global,
    enums: &EnumLists,
    cases: &[Case],
    out: &mut Vec<Option<Value>>,
) -> Result<(), NoMemory>
    ensures { OnOk result (out.new.items ≡ out.old.items ++ case_values enums.now (cases_view cases.now)) }
{
    for case in cases {
        note_expr(alloc, enums, &case.test, out)?;
        note_expr(alloc, enums, &case.outcome, out)?;
    }
    Ok(())
}

fn note_option(
    alloc: Global,
    enums: &EnumLists,
    expr: &Option<Expr>,
    out: &mut Vec<Option<Value>>,
) -> Result<(), NoMemory>
    ensures { OnOk result (out.new.items ≡ out.old.items ++ option_values enums.now (option_map view expr.now)) }
{
    match expr {
        None => Ok(()),
        Some(expr) => note_expr(alloc, enums, expr, out),
    }
}

fn note_conditional(
    alloc: Global,
    enums: &EnumLists,
    conditional: &Option<Conditional>,
    out: &mut Vec<Option<Value>>,
) -> Result<(), NoMemory>
    ensures { OnOk result (out.new.items ≡ out.old.items ++ conditional_values enums.now
        (option_map conditional_view conditional.now)) }
{
    match conditional {
        None => Ok(()),
        Some(pair) => {
            note_expr(alloc, enums, &pair.test, out)?;
            note_expr(alloc, enums, &pair.value, out)
        }
    }
}

/// The value of each node of the fact in preorder, where it is a constant that has one.
pub fn fact_values(
    alloc: Global,
    enums: &EnumLists,
    fact: &FactSource,
) -> Result<Vec<Option<Value>>, NoMemory>
    ensures { IfOk result (λ list. list.items ≡ values_of_fact enums.now (fact_view fact.now)) }
{
    let mut out = Vec::new(alloc);
    note_option(alloc, enums, &fact.main, &mut out)?;
    note_conditional(alloc, enums, &fact.conditional, &mut out)?;
    note_option(alloc, enums, &fact.placeholder, &mut out)?;
    Ok(out)
}
