// Builds the JSON value of the lists of options.
ghost use Rattle.std.specs.Prelude.{◌≡◌, ◌<◌, codes, length, slice_get, Some, IfOk, OnOk};
ghost use Rattle.serde_json.specs.Data.{array, string};
ghost use Rattle.serde_json.specs.View.{view as json, members_view};
ghost use Rattle.value_text.specs.Enums.{AreLists, Listed};
ghost use Rattle.fact_json.specs.FactJson.{items_from};
ghost use Rattle.dict_print.specs.DictionaryJson.{enum_json, put_some, some_array};

use crate::node_value::push_value;
use fact_paths::Name;
use fact_values::NoMemory;
use serde_json::{Map, Value, json};
use std::alloc::Global;
use value_text::EnumLists;

fn option_values(alloc: Global, options: &[Name]) -> Result<Value, NoMemory>
    ensures { IfOk result (λ v. json v ≡ array (items_from string options.now)) }
{
    let mut items = Vec::new(alloc);
    for option in options {
        let value = Value::try_from_str(alloc, option.as_str())?;
        push_value(&mut items, value)?;
    }
    Ok(Value::Array(items))
}

fn enum_value(alloc: Global, name: &str, options: &[Name]) -> Result<Value, NoMemory>
    ensures { IfOk result (λ v. json v ≡ enum_json (record { name = name.now; options = options.now })) }
{
    let options = option_values(alloc, options)?;
    Ok(json!(in alloc; {"name": name, "options": options})?)
}

// The list at a place, from 0.
fn enum_at(alloc: Global, enums: &EnumLists, place: u32) -> Result<Value, NoMemory>
    requires { place < length enums.now }
    ensures { IfOk result (λ v. (e : Listed) × (slice_get enums.now place ≡ Some e) × (json v ≡ enum_json e)) }
{
    let Some(name) = enums.name(place) else {
        unreachable!()
    };
    let Some(options) = enums.options(place) else {
        unreachable!()
    };
    enum_value(alloc, name, options)
}

fn enum_values(alloc: Global, enums: &EnumLists) -> Result<Value, NoMemory>
    ensures { IfOk result (λ v. json v ≡ array (items_from enum_json enums.now)) }
{
    let mut items = Vec::new(alloc);
    for place in 0..enums.len() {
        let value = enum_at(alloc, enums, place)?;
        push_value(&mut items, value)?;
    }
    Ok(Value::Array(items))
}

/// Adds a member for the lists of options, where there are any.
pub fn put_enums(
    members: &mut Map<String, Value>,
    alloc: Global,
    enums: &EnumLists,
) -> Result<(), NoMemory>
    ensures member { OnOk result (members_view members.new.entries ≡ put_some (codes "enums")
        (some_array enum_json enums.now) (members_view members.old.entries)) }
    ensures lists { AreLists enums.now }
{
    if enums.len() == 0 {
        return Ok(());
    }
    let value = enum_values(alloc, enums)?;
    Ok(serde_json::put(members, alloc, "enums", value)?)
}
