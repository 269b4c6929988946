// Builds the JSON value of an expression.
ghost use Rattle.std.specs.Prelude.{◌≡◌, codes, IfOk};
ghost use Rattle.serde_json.specs.Data.{item, no_items, string};
ghost use Rattle.serde_json.specs.View.{view as json};
ghost use Rattle.dict_source.specs.View.{view, case_view, cases_view, literal_of, trees_view, use_view};
ghost use Rattle.fact_json.specs.Json.{json_of, json_of_cases, json_of_trees, literal_json, node_json, one_json, text_json};
ghost use Rattle.dict_print.specs.DictionaryJson.{case_json};

use crate::node_value::{
    bare_node, named_items, node_of_one, node_of_pick, node_of_two, push_value, text_node,
    texts_node,
};
use crate::word::{word_of_many, word_of_one, word_of_pick, word_of_read, word_of_two};
use dict_source::{Case, Constant, Expr, OneOp, PathUse};
use fact_values::NoMemory;
use serde_json::Value;
use std::alloc::Global;

fn constant_value(alloc: Global, constant: &Constant) -> Result<Value, NoMemory>
    ensures { IfOk result (λ v. json v ≡ literal_json (literal_of constant.now)) }
{
    match constant {
        Constant::True => bare_node(alloc, "True"),
        Constant::False => bare_node(alloc, "False"),
        Constant::Int(text) => text_node(alloc, "Int", text.as_str()),
        Constant::Dollar(text) => text_node(alloc, "Dollar", text.as_str()),
        Constant::Rational(text) => text_node(alloc, "Rational", text.as_str()),
        Constant::Day(text) => text_node(alloc, "Day", text.as_str()),
        Constant::Text(text) => text_node(alloc, "Text", text.as_str()),
        Constant::Choice(name, option) => {
            texts_node(alloc, "Enum", name.as_str(), option.as_str())
        }
    }
}

// The node of an operation, which has the name of its table before the operand.
fn node_of_op(alloc: Global, op: &OneOp, operand: Value) -> Result<Value, NoMemory>
    ensures { IfOk result (λ v. json v ≡ one_json op.now (json operand)) }
{
    match op {
        OneOp::Lookup(table) => node_of_pick(alloc, "Lookup", table.name().as_str(), operand),
        OneOp::Not | OneOp::Round | OneOp::YearOf | OneOp::MonthOf | OneOp::DayOf => {
            node_of_one(alloc, word_of_one(op), operand)
        }
    }
}

// The node that reads a path.
fn use_node(alloc: Global, name: &str, used: &PathUse) -> Result<Value, NoMemory>
    ensures { IfOk result (λ v. json v ≡ text_json name.now (use_view used.now).text) }
{
    let text = used.text(alloc)?;
    text_node(alloc, name, text.as_str())
}

// The node that picks of the members that a path lists.
fn picked_node(
    alloc: Global,
    name: &str,
    used: &PathUse,
    condition: Value,
) -> Result<Value, NoMemory>
    ensures { IfOk result (λ v. json v ≡ node_json name.now
        (item (string (use_view used.now).text) (item (json condition) no_items))) }
{
    let text = used.text(alloc)?;
    node_of_pick(alloc, name, text.as_str(), condition)
}

/// The value that spells the expression.
#[tactic(auto, using(dict_source::proofs::Views::views))]
#[cycle(expr)]
pub fn expr_value(alloc: Global, expr: &Expr) -> Result<Value, NoMemory>
    ensures { IfOk result (λ v. json v ≡ json_of (view expr.now)) }
{
    match expr {
        Expr::Const(constant) => constant_value(alloc, constant),
        Expr::Read(op, used) => use_node(alloc, word_of_read(*op), used),
        Expr::Switch(cases) => switch_value(alloc, cases),
        Expr::Many(op, operands) => many_value(alloc, word_of_many(*op), operands),
        Expr::One(op, operand) => one_value(alloc, op, operand),
        Expr::Two(op, first, second) => {
            let first = expr_value(alloc, first)?;
            let second = expr_value(alloc, second)?;
            node_of_two(alloc, word_of_two(*op), first, second)
        }
        Expr::Pick(op, used, condition) => pick_value(alloc, word_of_pick(*op), used, condition),
    }
}

#[cycle(expr)]
fn one_value(alloc: Global, op: &OneOp, operand: &Expr) -> Result<Value, NoMemory>
    ensures { IfOk result (λ v. json v ≡ one_json op.now (json_of (view operand.now))) }
{
    let operand = expr_value(alloc, operand)?;
    node_of_op(alloc, op, operand)
}

#[cycle(expr)]
fn pick_value(
    alloc: Global,
    name: &str,
    used: &PathUse,
    condition: &Expr,
) -> Result<Value, NoMemory>
    ensures { IfOk result (λ v. json v ≡ node_json name.now
        (item (string (use_view used.now).text) (item (json_of (view condition.now)) no_items))) }
{
    let condition = expr_value(alloc, condition)?;
    picked_node(alloc, name, used, condition)
}

#[cycle(expr)]
fn many_value(alloc: Global, name: &str, operands: &[Expr]) -> Result<Value, NoMemory>
    ensures { IfOk result (λ v. json v ≡ node_json name.now (json_of_trees (trees_view operands.now))) }
{
    let mut items = named_items(alloc, name)?;
    for operand in operands {
        let value = expr_value(alloc, operand)?;
        push_value(&mut items, value)?;
    }
    Ok(Value::Array(items))
}

#[cycle(expr)]
fn switch_value(alloc: Global, cases: &[Case]) -> Result<Value, NoMemory>
    ensures { IfOk result (λ v. json v ≡ node_json (codes "Switch") (json_of_cases (cases_view cases.now))) }
{
    let mut items = named_items(alloc, "Switch")?;
    for case in cases {
        let value = case_value(alloc, case)?;
        push_value(&mut items, value)?;
    }
    Ok(Value::Array(items))
}

#[cycle(expr)]
fn case_value(alloc: Global, case: &Case) -> Result<Value, NoMemory>
    ensures { IfOk result (λ v. json v ≡ case_json (case_view case.now)) }
{
    let test = expr_value(alloc, &case.test)?;
    let outcome = expr_value(alloc, &case.outcome)?;
    node_of_two(alloc, "Case", test, outcome)
}
