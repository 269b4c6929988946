// Builds the JSON value of the tables.
ghost use Rattle.std.specs.Prelude.{◌≡◌, [], codes, string_bytes, IfOk, IsTrue, OnOk};
ghost use Rattle.std.specs.List.{All};
ghost use Rattle.serde_json.specs.Data.{array, no_members, put, string};
ghost use Rattle.serde_json.specs.View.{view as json, members_view};
ghost use Rattle.value_text.specs.Enums.{AreLists};
ghost use Rattle.value_text.specs.Values.{IsRead, printed};
ghost use Rattle.fact_json.specs.FactJson.{items_from, stated_text};
ghost use Rattle.dict_source.specs.Tables.{is_kind, key_value as value_of_key};
ghost use Rattle.dict_print.specs.DictionaryJson.{IsSound, put_some, row_json, some_array, stated_type, table_json, table_members};
ghost use Rattle.dict_print.specs.TableTexts.{HasText, HasTexts, IsTyped};

use crate::fact_value::put_text;
use crate::node_value::push_value;
use crate::stated::{push_type, scalar_word};
use dict_source::LookupTable;
use fact_values::{Day, Dollar, FactType, NoMemory, Value as Answer, Whole};
use law_arithmetic::Row;
use serde_json::{Map, Value, json};
use std::alloc::Global;
use value_text::{EnumLists, Line, print};

// ---- rows

// The value that a key is.
fn key_value(from: FactType, key: i64) -> Answer
    requires { IsTrue (is_kind from (value_of_key from key)) }
    ensures { result ≡ value_of_key from key }
{
    match from {
        FactType::Int => Answer::Int(Whole::new(key).unwrap()),
        FactType::Dollar => Answer::Dollar(Dollar::new(key).unwrap()),
        FactType::Day => Answer::Day(Day::of_number(key).unwrap()),
        _ => unreachable!(),
    }
}

// The text of a value.
fn text_value(alloc: Global, enums: &EnumLists, value: &Answer) -> Result<Value, NoMemory>
    requires { HasText enums.now value.now }
    ensures { IfOk result (λ v. json v ≡ string (printed enums.now value.now)) }
{
    let mut line = Line::new();
    print(value, enums, &mut line);
    let Ok(text) = str::from_utf8(line.bytes()) else {
        unreachable!()
    };
    Ok(Value::try_from_str(alloc, text)?)
}

fn key_text(alloc: Global, from: FactType, key: i64) -> Result<Value, NoMemory>
    requires { IsTrue (is_kind from (value_of_key from key)) }
    ensures { IfOk result (λ v. json v ≡ string (printed [] (value_of_key from key))) }
{
    text_value(alloc, &EnumLists::new(alloc), &key_value(from, key))
}

// `[K,V]`
fn row_value(alloc: Global, enums: &EnumLists, from: FactType, row: &Row) -> Result<Value, NoMemory>
    requires { HasTexts enums.now from row.now }
    ensures { IfOk result (λ v. json v ≡ row_json enums.now from row.now) }
{
    let key = key_text(alloc, from, row.key)?;
    let value = text_value(alloc, enums, &row.value)?;
    Ok(json!(in alloc; [key, value])?)
}

fn row_values(
    alloc: Global,
    enums: &EnumLists,
    from: FactType,
    rows: &[Row],
) -> Result<Value, NoMemory>
    requires { All (HasTexts enums.now from) rows.now }
    ensures { IfOk result (λ v. json v ≡ array (items_from (row_json enums.now from) rows.now)) }
{
    let mut items = Vec::new(alloc);
    for row in rows {
        let value = row_value(alloc, enums, from, row)?;
        push_value(&mut items, value)?;
    }
    Ok(Value::Array(items))
}

// ---- a table

// Adds a member for the value below the first key.
fn put_below(
    members: &mut Map<String, Value>,
    alloc: Global,
    enums: &EnumLists,
    below: &Answer,
) -> Result<(), NoMemory>
    requires { HasText enums.now below.now }
    ensures { OnOk result (members_view members.new.entries ≡ put (codes "else")
        (string (printed enums.now below.now)) (members_view members.old.entries)) }
{
    let value = text_value(alloc, enums, below)?;
    Ok(serde_json::put(members, alloc, "else", value)?)
}

fn put_rows(
    members: &mut Map<String, Value>,
    alloc: Global,
    enums: &EnumLists,
    from: FactType,
    rows: &[Row],
) -> Result<(), NoMemory>
    requires { All (HasTexts enums.now from) rows.now }
    ensures { OnOk result (members_view members.new.entries ≡ put (codes "rows")
        (array (items_from (row_json enums.now from) rows.now)) (members_view members.old.entries)) }
{
    let values = row_values(alloc, enums, from, rows)?;
    Ok(serde_json::put(members, alloc, "rows", values)?)
}

// Adds a member for the type of the values.
fn put_to(
    members: &mut Map<String, Value>,
    alloc: Global,
    enums: &EnumLists,
    to: FactType,
) -> Result<(), NoMemory>
    requires { IsRead enums.now to }
    ensures { OnOk result (members_view members.new.entries ≡ put (codes "to")
        (string (stated_text (stated_type enums.now to))) (members_view members.old.entries)) }
{
    let mut text = String::new(alloc);
    push_type(&mut text, enums, to)?;
    Ok(serde_json::put(members, alloc, "to", Value::String(text))?)
}

// Adds the members of a table to none.
fn put_table(
    members: &mut Map<String, Value>,
    alloc: Global,
    enums: &EnumLists,
    table: &LookupTable,
) -> Result<(), NoMemory>
    requires none { members_view members.old.entries ≡ no_members }
    requires lists { AreLists enums.now }
    requires typed { IsTyped enums.now table.now }
    ensures members { OnOk result (members_view members.new.entries ≡ table_members enums.now table.now) }
    ensures sound { OnOk result (IsSound table.now) }
{
    let from = table.from();
    put_below(members, alloc, enums, table.below())?;
    put_rows(members, alloc, enums, from, table.rows().rows())?;
    put_to(members, alloc, enums, table.to())?;
    put_text(members, alloc, "from", scalar_word(from))?;
    put_text(members, alloc, "name", table.name().as_str())
}

fn table_value(alloc: Global, enums: &EnumLists, table: &LookupTable) -> Result<Value, NoMemory>
    requires lists { AreLists enums.now }
    requires typed { IsTyped enums.now table.now }
    ensures value { IfOk result (λ v. json v ≡ table_json enums.now table.now) }
    ensures sound { IfOk result (λ _. IsSound table.now) }
{
    let mut members = Map::new(alloc);
    put_table(&mut members, alloc, enums, table)?;
    Ok(Value::Object(members))
}

fn table_values(alloc: Global, enums: &EnumLists, tables: &[LookupTable]) -> Result<Value, NoMemory>
    requires lists { AreLists enums.now }
    requires typed { All (IsTyped enums.now) tables.now }
    ensures value { IfOk result (λ v. json v ≡ array (items_from (table_json enums.now) tables.now)) }
    ensures sound { IfOk result (λ _. All IsSound tables.now) }
{
    let mut items = Vec::new(alloc);
    for table in tables {
        let value = table_value(alloc, enums, table)?;
        push_value(&mut items, value)?;
    }
    Ok(Value::Array(items))
}

/// Adds a member for the tables, where there are any.
pub fn put_tables(
    members: &mut Map<String, Value>,
    alloc: Global,
    enums: &EnumLists,
    tables: &[LookupTable],
) -> Result<(), NoMemory>
    requires lists { AreLists enums.now }
    requires typed { All (IsTyped enums.now) tables.now }
    ensures member { OnOk result (members_view members.new.entries ≡ put_some (codes "tables")
        (some_array (table_json enums.now) tables.now) (members_view members.old.entries)) }
    ensures sound { OnOk result (All IsSound tables.now) }
{
    if tables.is_empty() {
        return Ok(());
    }
    let values = table_values(alloc, enums, tables)?;
    Ok(serde_json::put(members, alloc, "tables", values)?)
}
