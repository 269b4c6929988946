// Builds the JSON value of a node, from its name and what stands behind it.
ghost use Rattle.std.specs.Prelude.{◌≡◌, IfOk, OnOk};
ghost use Rattle.serde_json.specs.Data.{array, item, no_items, string};
ghost use Rattle.serde_json.specs.View.{view as json, items_view};
ghost use Rattle.fact_json.specs.Json.{node_json, text_json};
ghost use Rattle.dict_print.specs.Joining.{Appends};

use fact_values::NoMemory;
use serde_json::{Value, json};
use std::alloc::Global;

/// `["NAME"]`
pub fn bare_node(alloc: Global, name: &str) -> Result<Value, NoMemory>
    ensures { IfOk result (λ v. json v ≡ node_json name.now no_items) }
{
    Ok(json!(in alloc; [name])?)
}

/// `["NAME", TEXT]`
pub fn text_node(alloc: Global, name: &str, text: &str) -> Result<Value, NoMemory>
    ensures { IfOk result (λ v. json v ≡ text_json name.now text.now) }
{
    Ok(json!(in alloc; [name, text])?)
}

/// `["NAME", TEXT, TEXT]`
pub fn texts_node(alloc: Global, name: &str, first: &str, second: &str) -> Result<Value, NoMemory>
    ensures { IfOk result (λ v. json v ≡ node_json name.now
        (item (string first.now) (item (string second.now) no_items))) }
{
    Ok(json!(in alloc; [name, first, second])?)
}

/// `["NAME", E]`
pub fn node_of_one(alloc: Global, name: &str, operand: Value) -> Result<Value, NoMemory>
    ensures { IfOk result (λ v. json v ≡ node_json name.now (item (json operand) no_items)) }
{
    Ok(json!(in alloc; [name, operand])?)
}

/// `["NAME", E, E]`
pub fn node_of_two(
    alloc: Global,
    name: &str,
    first: Value,
    second: Value,
) -> Result<Value, NoMemory>
    ensures { IfOk result (λ v. json v ≡ node_json name.now (item (json first) (item (json second) no_items))) }
{
    Ok(json!(in alloc; [name, first, second])?)
}

/// `["NAME", TEXT, E]`
pub fn node_of_pick(
    alloc: Global,
    name: &str,
    text: &str,
    operand: Value,
) -> Result<Value, NoMemory>
    ensures { IfOk result (λ v. json v ≡ node_json name.now (item (string text.now) (item (json operand) no_items))) }
{
    Ok(json!(in alloc; [name, text, operand])?)
}

/// The items of a node that so far has its name.
pub fn named_items(alloc: Global, name: &str) -> Result<Vec<Value>, NoMemory>
    ensures { IfOk result (λ items. items_view items.items ≡ item (string name.now) no_items) }
{
    let mut items = Vec::new(alloc);
    items.push(Value::try_from_str(alloc, name)?)?;
    Ok(items)
}

/// Appends a value.
pub fn push_value(items: &mut Vec<Value>, value: Value) -> Result<(), NoMemory>
    ensures { OnOk result (Appends (json value) (items_view items.old.items) (items_view items.new.items)) }
{
    items.push(value)?;
    Ok(())
}
