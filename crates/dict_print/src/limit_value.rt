// Builds the JSON value of the limits of a writable fact.
ghost use Rattle.std.specs.Prelude.{◌≡◌, codes, map, IfOk, OnOk};
ghost use Rattle.serde_json.specs.Data.{array};
ghost use Rattle.serde_json.specs.View.{view as json, members_view};
ghost use Rattle.dict_source.specs.Facts.{limit_view};
ghost use Rattle.fact_json.specs.FactJson.{items_from, limit_json};
ghost use Rattle.dict_print.specs.DictionaryJson.{put_some, some_array};

use crate::node_value::{push_value, text_node};
use dict_source::LimitText;
use fact_values::NoMemory;
use serde_json::{Map, Value};
use std::alloc::Global;

fn limit_value(alloc: Global, limit: &LimitText) -> Result<Value, NoMemory>
    ensures { IfOk result (λ v. json v ≡ limit_json (limit_view limit.now)) }
{
    match limit {
        LimitText::Min(text) => text_node(alloc, "Min", text.as_str()),
        LimitText::Max(text) => text_node(alloc, "Max", text.as_str()),
        LimitText::MaxLength(text) => text_node(alloc, "MaxLength", text.as_str()),
        LimitText::Check(text) => text_node(alloc, "Check", text.as_str()),
    }
}

fn limit_values(alloc: Global, limits: &[LimitText]) -> Result<Value, NoMemory>
    ensures { IfOk result (λ v. json v ≡ array (items_from limit_json (map limit_view limits.now))) }
{
    let mut items = Vec::new(alloc);
    for limit in limits {
        let value = limit_value(alloc, limit)?;
        push_value(&mut items, value)?;
    }
    Ok(Value::Array(items))
}

/// Adds a member for the limits, where there are any.
pub fn put_limits(
    members: &mut Map<String, Value>,
    alloc: Global,
    limits: &[LimitText],
) -> Result<(), NoMemory>
    ensures { OnOk result (members_view members.new.entries ≡ put_some (codes "limits")
        (some_array limit_json (map limit_view limits.now)) (members_view members.old.entries)) }
{
    if limits.is_empty() {
        return Ok(());
    }
    let value = limit_values(alloc, limits)?;
    Ok(serde_json::put(members, alloc, "limits", value)?)
}
