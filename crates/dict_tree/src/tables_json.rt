// Reads tables from their JSON value.
ghost use Rattle.std.specs.Prelude.{◌≡◌, IfSome, IsTrue, [], map, option_map, option_and_then, Some, codes};
ghost use Rattle.serde_json.specs.Find.{as_array, get};
ghost use Rattle.serde_json.specs.View.{view as json, items_view, members_view};
ghost use Rattle.fact_values.specs.declared.value.Value.TheVariants as values;
ghost use Rattle.value_text.specs.Enums.{are_distinct as distinct, list_place, option_place_in, place_in};
ghost use Rattle.value_text.specs.Values.{IsRead, value_at};
ghost use Rattle.dict_tree.specs.DictParsing.{listed_view};
ghost use Rattle.dict_source.specs.Facts.{stated_view};
ghost use Rattle.fact_json.specs.FactParsing.{text_at};
ghost use Rattle.dict_source.specs.Parts.{Gives};
ghost use Rattle.dict_tree.specs.TableParsing.{constant_type_named, constant_type_of, key_type_named, row_from, row_list, row_of, table_fields, table_list, table_of, table_with, tables_in, typed_table};
ghost use Rattle.dict_source.specs.Tables.{is_key_type, table_names};

use crate::enums_json::{EnumSource, are_distinct, read_name_under};
use dict_source::{LookupTable, ReadFault, TypeText};
use fact_json::{has_no_other, may_be_text, read_writable_type, text_under, two_texts_of};
use fact_paths::Name;
use fact_values::{FactType, Value as Answer};
use law_arithmetic::{Row, key_of};
use serde_json::{Map, Value};
use std::alloc::Global;
use value_text::{EnumLists, TextFault, read};

const MOST_TABLES: usize = 100;

// ---- lists of options

// The place as a number. No memory holds more lists than 32 bits number.
fn number_of(place: usize) -> Result<u32, ReadFault>
    ensures { Gives (λ n. n) result (Some place) }
{
    match u32::try_from(place) {
        Ok(number) => Ok(number),
        Err(_) => Err(ReadFault::NoMemory),
    }
}

// The place of the list with this name.
fn list_named(enums: &[EnumSource], name: &str) -> Option<usize>
    ensures { result ≡ list_place name.now (map listed_view enums.now) }
{
    let mut place = 0;
    for list in enums {
        if name == list.name.as_str() {
            return Some(place);
        }
        place += 1;
    }
    None
}

// The place of a text among names.
fn place_among(names: &[Name], text: &str) -> Option<usize>
    ensures { result ≡ place_in text.now names.now }
{
    names.iter().position(|name| text == name.as_str())
}

fn place_of_option(enums: &[EnumSource], list: u32, text: &str) -> Option<usize>
    ensures { result ≡ option_place_in (map listed_view enums.now) list text.now }
{
    place_among(enums.get(list as usize)?.options.as_slice(), text)
}

// The option of a list that a text names.
fn read_choice(enums: &[EnumSource], list: u32, text: &str) -> Result<Answer, ReadFault>
    ensures { Gives (λ v. v) result (option_map (λ place. values.Choice list place)
        (option_place_in (map listed_view enums.now) list text.now)) }
{
    match place_of_option(enums, list, text) {
        None => Err(ReadFault::Shape),
        Some(place) => Ok(Answer::Choice(list, number_of(place)?)),
    }
}

// ---- values

// The value of a type without a list that a text spells.
fn read_plain(alloc: Global, want: FactType, text: &str) -> Result<Answer, ReadFault>
    requires { IsRead [] want }
    ensures { Gives (λ v. v) result (value_at [] want text.now) }
{
    match read(alloc, want, &EnumLists::new(alloc), text) {
        Ok(value) => Ok(value),
        Err(TextFault::BadValue) => Err(ReadFault::Shape),
        Err(TextFault::NoMemory) => Err(ReadFault::NoMemory),
    }
}

// The value of a type that a text spells.
fn read_value(
    alloc: Global,
    enums: &[EnumSource],
    to: FactType,
    text: &str,
) -> Result<Answer, ReadFault>
    ensures { Gives (λ v. v) result (value_at (map listed_view enums.now) to text.now) }
{
    match to {
        FactType::Boolean => read_plain(alloc, FactType::Boolean, text),
        FactType::Int => read_plain(alloc, FactType::Int, text),
        FactType::Dollar => read_plain(alloc, FactType::Dollar, text),
        FactType::Rational => read_plain(alloc, FactType::Rational, text),
        FactType::Day => read_plain(alloc, FactType::Day, text),
        FactType::Text => read_plain(alloc, FactType::Text, text),
        FactType::Enum(list) => read_choice(enums, list, text),
        FactType::Collection(_) => Err(ReadFault::Shape),
        FactType::Item(_) => Err(ReadFault::Shape),
    }
}

fn read_key(alloc: Global, from: FactType, text: &str) -> Result<Answer, ReadFault>
    requires { IsTrue (is_key_type from) }
    ensures { Gives (λ v. v) result (value_at [] from text.now) }
{
    read_plain(alloc, from, text)
}

// ---- rows

fn read_row_of(
    alloc: Global,
    enums: &[EnumSource],
    from: FactType,
    to: FactType,
    texts: (&str, &str),
) -> Result<Row, ReadFault>
    requires { IsTrue (is_key_type from) }
    ensures { Gives (λ row. row) result (row_from (map listed_view enums.now) from to (texts.entry.0.now, texts.entry.1.now)) }
{
    let key = read_key(alloc, from, texts.0)?;
    let value = read_value(alloc, enums, to, texts.1)?;
    Ok(Row {
        key: key_of(&key),
        value,
    })
}

// `[K,V]`
fn read_row(
    alloc: Global,
    enums: &[EnumSource],
    from: FactType,
    to: FactType,
    value: &Value,
) -> Result<Row, ReadFault>
    requires { IsTrue (is_key_type from) }
    ensures { Gives (λ row. row) result (row_of (map listed_view enums.now) from to (json value.now)) }
{
    let Some(items) = value.as_array() else {
        return Err(ReadFault::Shape);
    };
    let Some(texts) = two_texts_of(items.as_slice()) else {
        return Err(ReadFault::Shape);
    };
    read_row_of(alloc, enums, from, to, texts)
}

fn read_row_list(
    alloc: Global,
    enums: &[EnumSource],
    from: FactType,
    to: FactType,
    items: &[Value],
) -> Result<Vec<Row>, ReadFault>
    requires { IsTrue (is_key_type from) }
    ensures { Gives (λ v. v.items) result (row_list (map listed_view enums.now) from to (items_view items.now)) }
{
    let mut rows = Vec::new(alloc);
    for item in items {
        let row = read_row(alloc, enums, from, to, item)?;
        rows.push(row)?;
    }
    Ok(rows)
}

fn read_rows(
    alloc: Global,
    enums: &[EnumSource],
    from: FactType,
    to: FactType,
    value: Option<&Value>,
) -> Result<Vec<Row>, ReadFault>
    requires { IsTrue (is_key_type from) }
    ensures { Gives (λ v. v.items) result (option_and_then (row_list (map listed_view enums.now) from to)
        (option_and_then as_array (option_map (λ v. json v.now) value.entry))) }
{
    let Some(value) = value else {
        return Err(ReadFault::Shape);
    };
    let Some(items) = value.as_array() else {
        return Err(ReadFault::Shape);
    };
    read_row_list(alloc, enums, from, to, items.as_slice())
}

fn read_below(
    alloc: Global,
    enums: &[EnumSource],
    to: FactType,
    value: &Value,
) -> Result<Answer, ReadFault>
    ensures { Gives (λ v. v) result (option_and_then (value_at (map listed_view enums.now) to)
        (text_at (codes "else") (json value.now))) }
{
    match text_under(value, "else") {
        None => Err(ReadFault::Shape),
        Some(text) => read_value(alloc, enums, to, text),
    }
}

// ---- types

fn key_type_of(text: &str) -> Option<FactType>
    ensures value { result ≡ key_type_named text.now }
    ensures keys { IfSome result (λ t. IsTrue (is_key_type t)) }
{
    match text {
        "Int" => Some(FactType::Int),
        "Dollar" => Some(FactType::Dollar),
        "Day" => Some(FactType::Day),
        _ => None,
    }
}

fn key_type_under(value: &Value) -> Option<FactType>
    ensures keys { IfSome result (λ t. IsTrue (is_key_type t)) }
    ensures value { result ≡ option_and_then key_type_named (text_at (codes "from") (json value.now)) }
{
    key_type_of(text_under(value, "from")?)
}

// The type of constants that is stated.
fn constant_type(enums: &[EnumSource], stated: &TypeText) -> Result<FactType, ReadFault>
    ensures { Gives (λ t. t) result (constant_type_of (map listed_view enums.now) (stated_view stated.now)) }
{
    match stated {
        TypeText::Scalar(of) => Ok(*of),
        TypeText::EnumOf(name) => match list_named(enums, name.as_str()) {
            None => Err(ReadFault::Shape),
            Some(place) => Ok(FactType::Enum(number_of(place)?)),
        },
        TypeText::WritableList => Err(ReadFault::Shape),
        TypeText::ListOf(_) => Err(ReadFault::Shape),
        TypeText::ItemOf(_) => Err(ReadFault::Shape),
    }
}

fn read_constant_type(
    alloc: Global,
    enums: &[EnumSource],
    text: &str,
) -> Result<FactType, ReadFault>
    ensures { Gives (λ t. t) result (constant_type_named (map listed_view enums.now) text.now) }
{
    let stated = read_writable_type(alloc, text)?;
    constant_type(enums, &stated)
}

fn read_constant_type_under(
    alloc: Global,
    enums: &[EnumSource],
    value: &Value,
) -> Result<FactType, ReadFault>
    ensures { Gives (λ t. t) result (option_and_then (constant_type_named (map listed_view enums.now))
        (text_at (codes "to") (json value.now))) }
{
    match text_under(value, "to") {
        None => Err(ReadFault::Shape),
        Some(text) => read_constant_type(alloc, enums, text),
    }
}

// ---- a table

#[tactic(auto, unfolding(crate::specs::TableParsing::typed_table))]
fn read_typed(
    alloc: Global,
    enums: &[EnumSource],
    value: &Value,
    name: Name,
    from: FactType,
    to: FactType,
) -> Result<LookupTable, ReadFault>
    requires { IsTrue (is_key_type from) }
    ensures { Gives (λ t. t) result (typed_table (map listed_view enums.now) (json value.now) name from to) }
{
    let rows = read_rows(alloc, enums, from, to, value.get("rows"))?;
    let below = read_below(alloc, enums, to, value)?;
    LookupTable::new(alloc, name, from, to, rows, below)
}

#[tactic(auto, unfolding(crate::specs::TableParsing::table_fields))]
fn read_fields(alloc: Global, enums: &[EnumSource], value: &Value) -> Result<LookupTable, ReadFault>
    ensures { Gives (λ t. t) result (table_fields (map listed_view enums.now) (json value.now)) }
{
    let name = read_name_under(alloc, value, "name")?;
    let Some(from) = key_type_under(value) else {
        return Err(ReadFault::Shape);
    };
    let to = read_constant_type_under(alloc, enums, value)?;
    read_typed(alloc, enums, value, name, from, to)
}

fn read_table_with(
    alloc: Global,
    enums: &[EnumSource],
    value: &Value,
    members: &Map<String, Value>,
) -> Result<LookupTable, ReadFault>
    ensures { Gives (λ t. t) result (table_with (map listed_view enums.now) (json value.now)
        (members_view members.now.entries)) }
{
    if !has_no_other(
        members,
        ["name", "from", "to", "rows", "else", "description"].as_slice(),
    ) {
        return Err(ReadFault::Shape);
    }
    if !may_be_text(value.get("description")) {
        return Err(ReadFault::Shape);
    }
    read_fields(alloc, enums, value)
}

fn read_table(alloc: Global, enums: &[EnumSource], value: &Value) -> Result<LookupTable, ReadFault>
    ensures { Gives (λ t. t) result (table_of (map listed_view enums.now) (json value.now)) }
{
    let Some(members) = value.as_object() else {
        return Err(ReadFault::Shape);
    };
    read_table_with(alloc, enums, value, members)
}

fn read_table_list(
    alloc: Global,
    enums: &[EnumSource],
    items: &[Value],
) -> Result<Vec<LookupTable>, ReadFault>
    ensures { Gives (λ v. v.items) result (table_list (map listed_view enums.now) (items_view items.now)) }
{
    let mut tables = Vec::new(alloc);
    for item in items {
        let table = read_table(alloc, enums, item)?;
        tables.push(table)?;
    }
    Ok(tables)
}

// The texts of the tables' names.
fn names_of_tables(alloc: Global, tables: &[LookupTable]) -> Result<Vec<&str>, ReadFault>
    ensures { Gives (λ v. map (λ t. t.now) v.items) result (Some (table_names tables.now)) }
{
    let mut texts = Vec::new(alloc);
    for table in tables {
        texts.push(table.name().as_str())?;
    }
    Ok(texts)
}

fn have_distinct_names(alloc: Global, tables: &[LookupTable]) -> Result<bool, ReadFault>
    ensures { Gives (λ b. b) result (Some (distinct (table_names tables.now))) }
{
    let names = names_of_tables(alloc, tables)?;
    are_distinct(alloc, names.as_slice())
}

/// The tables over these lists of options, none where there is no such member.
pub fn read_tables(
    alloc: Global,
    enums: &[EnumSource],
    value: Option<&Value>,
) -> Result<Vec<LookupTable>, ReadFault>
    ensures { Gives (λ v. v.items) result (tables_in (map listed_view enums.now) (option_map (λ v. json v.now) value.entry)) }
{
    let Some(value) = value else {
        return Ok(Vec::new(alloc));
    };
    let Some(items) = value.as_array() else {
        return Err(ReadFault::Shape);
    };
    let tables = read_table_list(alloc, enums, items.as_slice())?;
    if tables.len() > MOST_TABLES {
        return Err(ReadFault::Shape);
    }
    if !have_distinct_names(alloc, tables.as_slice())? {
        return Err(ReadFault::Shape);
    }
    Ok(tables)
}
