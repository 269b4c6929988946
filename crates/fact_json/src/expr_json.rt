// Reads an expression from its JSON value.
ghost use Rattle.std.specs.Prelude.{◌≡◌, ◌<◌, length, drop, map, string_bytes, codes, Some, option_map, option_and_then};
ghost use Rattle.serde_json.specs.Find.{as_str};
ghost use Rattle.serde_json.specs.View.{view as json, items_view};
ghost use Rattle.dict_source.specs.View.{view, box_view, looked_view, pair_view, picked_view, case_view, literal_of, use_view, use_of};
ghost use Rattle.fact_json.specs.Names.{node_named};
ghost use Rattle.fact_json.specs.Parsing.{one_text, two_texts, constant_of, fewest as fewest_of, at_least, is_text, no_operand, looked_of, node_of, picked_of, tree_of, array_tree, only_tree, pair_tree, picked_tree, tree_list, case_of, case_in, case_list};
ghost use Rattle.dict_source.specs.Parts.{Gives};

use crate::node_name::{ConstantName, NodeName, name_of_node, op_of_name};
use dict_source::{
    Case, Constant, Expr, LookupTable, ManyOp, OneOp, PathUse, ReadFault, find_table, read_use,
};
use fact_values::NoMemory;
use serde_json::Value;
use std::alloc::Global;

fn name_of(value: &Value) -> Option<NodeName>
    ensures { result ≡ option_and_then node_named (as_str (json value.now)) }
{
    name_of_node(value.as_str()?)
}

// A copy of the text behind the name, which is the only operand.
fn read_text(alloc: Global, items: &[Value]) -> Result<String, ReadFault>
    requires { 0 < length items.now }
    ensures { Gives string_bytes result (one_text (items_view (drop 1 items.now))) }
{
    if items.len() != 2 {
        return Err(ReadFault::Shape);
    }
    let Some(text) = items[1].as_str() else {
        return Err(ReadFault::Shape);
    };
    Ok(String::from_str(alloc, text)?)
}

// Copies of the two texts behind the name.
fn read_texts(alloc: Global, items: &[Value]) -> Result<(String, String), ReadFault>
    requires { 0 < length items.now }
    ensures { Gives (λ p. (string_bytes p.0, string_bytes p.1)) result (two_texts (items_view (drop 1 items.now))) }
{
    if items.len() != 3 {
        return Err(ReadFault::Shape);
    }
    let Some(first) = items[1].as_str() else {
        return Err(ReadFault::Shape);
    };
    let Some(second) = items[2].as_str() else {
        return Err(ReadFault::Shape);
    };
    Ok((
        String::from_str(alloc, first)?,
        String::from_str(alloc, second)?,
    ))
}

// The constant, where nothing stands behind the name.
fn read_bare(constant: Constant, items: &[Value]) -> Result<Constant, ReadFault>
    requires { 0 < length items.now }
    ensures { Gives literal_of result (no_operand (literal_of constant) (items_view (drop 1 items.now))) }
{
    if items.len() != 1 {
        return Err(ReadFault::Shape);
    }
    Ok(constant)
}

fn read_constant(alloc: Global, kind: ConstantName, items: &[Value]) -> Result<Constant, ReadFault>
    requires { 0 < length items.now }
    ensures { Gives literal_of result (constant_of kind (items_view (drop 1 items.now))) }
{
    match kind {
        ConstantName::True => read_bare(Constant::True, items),
        ConstantName::False => read_bare(Constant::False, items),
        ConstantName::Int => Ok(Constant::Int(read_text(alloc, items)?)),
        ConstantName::Dollar => Ok(Constant::Dollar(read_text(alloc, items)?)),
        ConstantName::Rational => Ok(Constant::Rational(read_text(alloc, items)?)),
        ConstantName::Day => Ok(Constant::Day(read_text(alloc, items)?)),
        ConstantName::Text => Ok(Constant::Text(read_text(alloc, items)?)),
        ConstantName::Enum => {
            let (name, option) = read_texts(alloc, items)?;
            Ok(Constant::Choice(name, option))
        }
    }
}

// The use that the text is.
pub(crate) fn use_in(alloc: Global, text: &str) -> Result<PathUse, ReadFault>
    ensures { Gives use_view result (Some (use_of text.now)) }
{
    match read_use(alloc, text) {
        Ok(path) => Ok(path),
        Err(NoMemory) => Err(ReadFault::NoMemory),
    }
}

// The use behind the name, which is the only operand.
fn read_path(alloc: Global, items: &[Value]) -> Result<PathUse, ReadFault>
    requires { 0 < length items.now }
    ensures { Gives use_view result (option_map use_of (one_text (items_view (drop 1 items.now)))) }
{
    if items.len() != 2 {
        return Err(ReadFault::Shape);
    }
    let Some(text) = items[1].as_str() else {
        return Err(ReadFault::Shape);
    };
    use_in(alloc, text)
}

/// The expression that the value spells.
#[cycle(expr)]
pub fn read_expr(alloc: Global, tables: &[LookupTable], value: &Value) -> Result<Expr, ReadFault>
    ensures { Gives view result (tree_of tables.now (json value.now)) }
{
    match value {
        Value::Array(items) => read_array(alloc, tables, items.as_slice()),
        _ => Err(ReadFault::Shape),
    }
}

#[cycle(expr)]
fn read_array(alloc: Global, tables: &[LookupTable], items: &[Value]) -> Result<Expr, ReadFault>
    ensures { Gives view result (array_tree tables.now (items_view items.now)) }
{
    if items.is_empty() {
        return Err(ReadFault::Shape);
    }
    let Some(name) = name_of(&items[0]) else {
        return Err(ReadFault::Shape);
    };
    read_node(alloc, tables, name, items)
}

// The node with the operands behind its name.
#[tactic(auto, using(dict_source::proofs::Views::views))]
#[cycle(expr)]
fn read_node(
    alloc: Global,
    tables: &[LookupTable],
    name: NodeName,
    items: &[Value],
) -> Result<Expr, ReadFault>
    requires { 0 < length items.now }
    ensures { let operands = items_view (drop 1 items.now) in
        Gives view result (node_of tables.now name operands (only_tree tables.now operands) (pair_tree tables.now operands) (picked_tree tables.now operands)
        (tree_list tables.now operands) (case_list tables.now operands)) }
{
    match name {
        NodeName::Constant(kind) => Ok(Expr::Const(read_constant(alloc, kind, items)?)),
        NodeName::Read(op) => Ok(Expr::Read(op, read_path(alloc, items)?)),
        NodeName::Switch => Ok(Expr::Switch(read_cases(alloc, tables, items)?)),
        NodeName::Many(op) => Ok(Expr::Many(op, read_operands(alloc, tables, op, items)?)),
        NodeName::One(name) => Ok(Expr::One(op_of_name(name), read_only(alloc, tables, items)?)),
        NodeName::Two(op) => {
            let (left, right) = read_pair(alloc, tables, items)?;
            Ok(Expr::Two(op, left, right))
        }
        NodeName::Pick(op) => {
            let (path, condition) = read_picked(alloc, tables, items)?;
            Ok(Expr::Pick(op, path, condition))
        }
        NodeName::Lookup => {
            let (table, operand) = read_looked(alloc, tables, items)?;
            Ok(Expr::One(OneOp::Lookup(table), operand))
        }
    }
}

// The expression that the value spells, in a place of its own.
#[cycle(expr)]
pub(crate) fn read_boxed(
    alloc: Global,
    tables: &[LookupTable],
    value: &Value,
) -> Result<Box<Expr>, ReadFault>
    ensures { Gives box_view result (tree_of tables.now (json value.now)) }
{
    let expr = read_expr(alloc, tables, value)?;
    Ok(Box::new(alloc, expr)?)
}

// The only expression behind the name.
#[cycle(expr)]
fn read_only(alloc: Global, tables: &[LookupTable], items: &[Value]) -> Result<Box<Expr>, ReadFault>
    requires { 0 < length items.now }
    ensures { Gives box_view result (only_tree tables.now (items_view (drop 1 items.now))) }
{
    if items.len() != 2 {
        return Err(ReadFault::Shape);
    }
    read_boxed(alloc, tables, &items[1])
}

// The two expressions behind the name.
#[cycle(expr)]
fn read_pair(
    alloc: Global,
    tables: &[LookupTable],
    items: &[Value],
) -> Result<(Box<Expr>, Box<Expr>), ReadFault>
    requires { 0 < length items.now }
    ensures { Gives pair_view result (pair_tree tables.now (items_view (drop 1 items.now))) }
{
    if items.len() != 3 {
        return Err(ReadFault::Shape);
    }
    let left = read_boxed(alloc, tables, &items[1])?;
    let right = read_boxed(alloc, tables, &items[2])?;
    Ok((left, right))
}

// The use and the condition behind the name.
#[cycle(expr)]
fn read_picked(
    alloc: Global,
    tables: &[LookupTable],
    items: &[Value],
) -> Result<(PathUse, Box<Expr>), ReadFault>
    requires { 0 < length items.now }
    ensures { Gives picked_view result (option_map picked_of (picked_tree tables.now (items_view (drop 1 items.now)))) }
{
    if items.len() != 3 {
        return Err(ReadFault::Shape);
    }
    let Some(text) = items[1].as_str() else {
        return Err(ReadFault::Shape);
    };
    let condition = read_boxed(alloc, tables, &items[2])?;
    let path = use_in(alloc, text)?;
    Ok((path, condition))
}

// The table of the name behind the node's, and the operand behind that.
#[cycle(expr)]
fn read_looked(
    alloc: Global,
    tables: &[LookupTable],
    items: &[Value],
) -> Result<(LookupTable, Box<Expr>), ReadFault>
    requires { 0 < length items.now }
    ensures { Gives looked_view result (option_and_then (looked_of tables.now) (picked_tree tables.now (items_view (drop 1 items.now)))) }
{
    if items.len() != 3 {
        return Err(ReadFault::Shape);
    }
    let Some(text) = items[1].as_str() else {
        return Err(ReadFault::Shape);
    };
    let operand = read_boxed(alloc, tables, &items[2])?;
    let Some(table) = find_table(tables, text) else {
        return Err(ReadFault::Shape);
    };
    match table.copy() {
        Ok(table) => Ok((table, operand)),
        Err(NoMemory) => Err(ReadFault::NoMemory),
    }
}

fn fewest(op: ManyOp) -> usize
    ensures { result ≡ fewest_of op }
{
    match op {
        ManyOp::Subtract => 2,
        ManyOp::All | ManyOp::Any | ManyOp::Add | ManyOp::GreaterOf | ManyOp::LesserOf => 1,
    }
}

// The operands, where there are enough of them.
#[cycle(expr)]
fn read_operands(
    alloc: Global,
    tables: &[LookupTable],
    op: ManyOp,
    items: &[Value],
) -> Result<Vec<Expr>, ReadFault>
    requires { 0 < length items.now }
    ensures { Gives (λ v. map view v.items) result (option_and_then (at_least (fewest_of op))
        (tree_list tables.now (items_view (drop 1 items.now)))) }
{
    let list = read_list(alloc, tables, items)?;
    if list.len() < fewest(op) {
        return Err(ReadFault::Shape);
    }
    Ok(list)
}

// The expressions behind the name.
#[cycle(expr)]
fn read_list(alloc: Global, tables: &[LookupTable], items: &[Value]) -> Result<Vec<Expr>, ReadFault>
    requires { 0 < length items.now }
    ensures { Gives (λ v. map view v.items) result (tree_list tables.now (items_view (drop 1 items.now))) }
{
    let mut list = Vec::new(alloc);
    for i in 1..items.len() {
        let expr = read_expr(alloc, tables, &items[i])?;
        list.push(expr)?;
    }
    Ok(list)
}

// The cases behind the name, one or more.
#[cycle(expr)]
fn read_cases(
    alloc: Global,
    tables: &[LookupTable],
    items: &[Value],
) -> Result<Vec<Case>, ReadFault>
    requires { 0 < length items.now }
    ensures { Gives (λ v. map case_view v.items) result
        (option_and_then (at_least 1) (case_list tables.now (items_view (drop 1 items.now)))) }
{
    let mut cases = Vec::new(alloc);
    for i in 1..items.len() {
        let case = read_case(alloc, tables, &items[i])?;
        cases.push(case)?;
    }
    if cases.is_empty() {
        return Err(ReadFault::Shape);
    }
    Ok(cases)
}

fn is_case(value: &Value) -> bool
    ensures { result ≡ is_text (codes "Case") (as_str (json value.now)) }
{
    match value.as_str() {
        None => false,
        Some(text) => text == "Case",
    }
}

// `["Case",E,E]`
#[cycle(expr)]
fn read_case(alloc: Global, tables: &[LookupTable], value: &Value) -> Result<Case, ReadFault>
    ensures { Gives case_view result (case_of tables.now (json value.now)) }
{
    match value {
        Value::Array(items) => {
            let (test, outcome) = read_case_in(alloc, tables, items.as_slice())?;
            Ok(Case {
                test: Box::into_inner(test),
                outcome: Box::into_inner(outcome),
            })
        }
        _ => Err(ReadFault::Shape),
    }
}

#[cycle(expr)]
fn read_case_in(
    alloc: Global,
    tables: &[LookupTable],
    items: &[Value],
) -> Result<(Box<Expr>, Box<Expr>), ReadFault>
    ensures { Gives pair_view result (case_in tables.now (items_view items.now)) }
{
    if items.is_empty() {
        return Err(ReadFault::Shape);
    }
    if !is_case(&items[0]) {
        return Err(ReadFault::Shape);
    }
    read_pair(alloc, tables, items)
}
