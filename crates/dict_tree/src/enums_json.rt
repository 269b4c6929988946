// Reads lists of options from their JSON value.
ghost use Rattle.std.specs.Prelude.{◌≡◌, ◌++◌, ◌∷◌, [], not, IfOk, IsTrue, map, option_map, option_and_then, Some};
ghost use Rattle.serde_json.specs.Find.{as_str, as_array};
ghost use Rattle.serde_json.specs.View.{view as json, items_view, members_view};
ghost use Rattle.fact_paths.specs.Parsing.{name_of};
ghost use Rattle.value_text.specs.Enums.{are_distinct as distinct, is_among as among, names_of};
ghost use Rattle.dict_source.specs.Parts.{Gives};
ghost use Rattle.fact_json.specs.FactParsing.{text_at};
ghost use Rattle.dict_tree.specs.DictParsing.{listed_view, name_list, enum_of, enum_with, enum_list, enums_in, if_sound};

use dict_source::ReadFault;
use fact_json::{has_no_other, text_under};
use fact_paths::{Name, PathFault};
use indexmap::IndexSet;
use serde_json::{Map, Value};
use std::alloc::Global;

/// A list of options under its name, as it is read.
#[derive(Drop)]
pub struct EnumSource {
    pub name: Name,
    pub options: Vec<Name>,
}

// Notes the text, where it wasn't seen before, and says whether it was new.
fn is_new<'a>(seen: &mut IndexSet<&'a str>, text: &'a str) -> Result<bool, ReadFault>
    ensures new { Gives (λ b. b) result (Some (not (among text.entry.now (map (λ t. t.now) seen.old.keys)))) }
    ensures noted { IfOk result (λ b. IsTrue b → map (λ t. t.now) seen.new.keys
        ≡ map (λ t. t.now) seen.old.keys ++ text.entry.now ∷ []) }
{
    Ok(seen.insert(text)?)
}

// Does no text stand twice?
pub(crate) fn are_distinct(alloc: Global, texts: &[&str]) -> Result<bool, ReadFault>
    ensures { Gives (λ b. b) result (Some (distinct (map (λ t. t.now) texts.now))) }
{
    let mut seen = IndexSet::new(alloc);
    for text in texts {
        if !is_new(&mut seen, text)? {
            return Ok(false);
        }
    }
    Ok(true)
}

fn read_name(alloc: Global, text: &str) -> Result<Name, ReadFault>
    ensures { Gives (λ name. name) result (name_of text.now) }
{
    match Name::read(alloc, text) {
        Ok(name) => Ok(name),
        Err(PathFault::BadPath) => Err(ReadFault::Shape),
        Err(PathFault::NoMemory) => Err(ReadFault::NoMemory),
    }
}

fn read_name_in(alloc: Global, value: &Value) -> Result<Name, ReadFault>
    ensures { Gives (λ name. name) result (option_and_then name_of (as_str (json value.now))) }
{
    match value.as_str() {
        None => Err(ReadFault::Shape),
        Some(text) => read_name(alloc, text),
    }
}

pub(crate) fn read_name_under(alloc: Global, value: &Value, key: &str) -> Result<Name, ReadFault>
    ensures { Gives (λ name. name) result (option_and_then name_of (text_at key.now (json value.now))) }
{
    match text_under(value, key) {
        None => Err(ReadFault::Shape),
        Some(text) => read_name(alloc, text),
    }
}

fn read_names(alloc: Global, items: &[Value]) -> Result<Vec<Name>, ReadFault>
    ensures { Gives (λ v. v.items) result (name_list (items_view items.now)) }
{
    let mut names = Vec::new(alloc);
    for item in items {
        let name = read_name_in(alloc, item)?;
        names.push(name)?;
    }
    Ok(names)
}

fn read_options(alloc: Global, value: Option<&Value>) -> Result<Vec<Name>, ReadFault>
    ensures { Gives (λ v. v.items) result (option_and_then name_list
        (option_and_then as_array (option_map (λ v. json v.now) value.entry))) }
{
    let Some(value) = value else {
        return Err(ReadFault::Shape);
    };
    let Some(items) = value.as_array() else {
        return Err(ReadFault::Shape);
    };
    read_names(alloc, items.as_slice())
}

// The texts of the names.
fn texts_of(alloc: Global, names: &[Name]) -> Result<Vec<&str>, ReadFault>
    ensures { Gives (λ v. map (λ t. t.now) v.items) result (Some names.now) }
{
    let mut texts = Vec::new(alloc);
    for name in names {
        texts.push(name.as_str())?;
    }
    Ok(texts)
}

fn has_distinct_options(alloc: Global, list: &EnumSource) -> Result<bool, ReadFault>
    ensures { Gives (λ b. b) result (Some (distinct (listed_view list.now).options)) }
{
    let texts = texts_of(alloc, list.options.as_slice())?;
    are_distinct(alloc, texts.as_slice())
}

// The list, where it has one or more distinct options.
fn sound(alloc: Global, list: EnumSource) -> Result<EnumSource, ReadFault>
    ensures { Gives listed_view result (if_sound (listed_view list)) }
{
    if list.options.is_empty() {
        return Err(ReadFault::Shape);
    }
    if !has_distinct_options(alloc, &list)? {
        return Err(ReadFault::Shape);
    }
    Ok(list)
}

fn read_enum_with(
    alloc: Global,
    value: &Value,
    members: &Map<String, Value>,
) -> Result<EnumSource, ReadFault>
    ensures { Gives listed_view result (enum_with (json value.now) (members_view members.now.entries)) }
{
    if !has_no_other(members, ["name", "options"].as_slice()) {
        return Err(ReadFault::Shape);
    }
    let name = read_name_under(alloc, value, "name")?;
    let options = read_options(alloc, value.get("options"))?;
    sound(alloc, EnumSource { name, options })
}

fn read_enum(alloc: Global, value: &Value) -> Result<EnumSource, ReadFault>
    ensures { Gives listed_view result (enum_of (json value.now)) }
{
    let Some(members) = value.as_object() else {
        return Err(ReadFault::Shape);
    };
    read_enum_with(alloc, value, members)
}

fn read_enum_list(alloc: Global, items: &[Value]) -> Result<Vec<EnumSource>, ReadFault>
    ensures { Gives (λ v. map listed_view v.items) result (enum_list (items_view items.now)) }
{
    let mut enums = Vec::new(alloc);
    for item in items {
        let list = read_enum(alloc, item)?;
        enums.push(list)?;
    }
    Ok(enums)
}

// The texts of the lists' names.
fn names_of_lists(alloc: Global, enums: &[EnumSource]) -> Result<Vec<&str>, ReadFault>
    ensures { Gives (λ v. map (λ t. t.now) v.items) result (Some (names_of (map listed_view enums.now))) }
{
    let mut texts = Vec::new(alloc);
    for list in enums {
        texts.push(list.name.as_str())?;
    }
    Ok(texts)
}

fn have_distinct_names(alloc: Global, enums: &[EnumSource]) -> Result<bool, ReadFault>
    ensures { Gives (λ b. b) result (Some (distinct (names_of (map listed_view enums.now)))) }
{
    let names = names_of_lists(alloc, enums)?;
    are_distinct(alloc, names.as_slice())
}

/// The lists of options, none where there is no such member.
pub fn read_enums(alloc: Global, value: Option<&Value>) -> Result<Vec<EnumSource>, ReadFault>
    ensures { Gives (λ v. map listed_view v.items) result (enums_in (option_map (λ v. json v.now) value.entry)) }
{
    let Some(value) = value else {
        return Ok(Vec::new(alloc));
    };
    let Some(items) = value.as_array() else {
        return Err(ReadFault::Shape);
    };
    let enums = read_enum_list(alloc, items.as_slice())?;
    if !have_distinct_names(alloc, enums.as_slice())? {
        return Err(ReadFault::Shape);
    }
    Ok(enums)
}
