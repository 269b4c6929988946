// Reads a dictionary from its JSON form.
ghost use Rattle.std.specs.Prelude.{◌≡◌, ◌≤◌, ◌<◌, ◌^◌, ◌++◌, ◌∷◌, [], length, map, option_map, option_and_then, codes, IfErr, IfOk, IsTrue, OnOk};
ghost use Rattle.serde_json.specs.Find.{as_array, get};
ghost use Rattle.serde_json.specs.View.{view as json, items_view, members_view};
ghost use Rattle.value_text.specs.declared.enum_lists.ListFault.TheVariants as list_faults;
ghost use Rattle.dict_tree.specs.Counting.{HasFewFacts};
ghost use Rattle.dict_tree.specs.DictJson.{top_keys as keys_of_top};
ghost use Rattle.fact_json.specs.FactParsing.{has_no_other as only};
ghost use Rattle.dict_source.specs.Facts.{fact_view};
ghost use Rattle.dict_source.specs.Dictionary.{IsValid, dictionary_view};
ghost use Rattle.dict_tree.specs.declared.fault.TreeFault.TheVariants.{NoMemory};
ghost use Rattle.dict_tree.specs.DictParsing.{BytesAre, BytesGive, IsOfShape, listed_view, seen, Yields, dictionary_of, facts_of, read_view, version_in, version_with};
ghost use Rattle.dict_tree.specs.Listing.{may_follow, may_all_follow};

use crate::enums_json::{EnumSource, read_enums};
use crate::fault::TreeFault;
use crate::limits::{first_deep, first_passed};
use crate::tables_json::read_tables;
use dict_source::{DictSource, FactSource, LookupTable, ReadFault};
use fact_json::{Version, has_no_other, may_be_text, read_fact, text_under, version_named};
use serde_json::{Map, Value};
use std::alloc::Global;
use value_text::{EnumLists, ListFault};

const MOST_BYTES: usize = 8_388_608;

/// The lists, the tables and the facts of a JSON value, before they are kept.
#[derive(Drop)]
pub struct Found {
    pub enums: Vec<EnumSource>,
    pub tables: Vec<LookupTable>,
    pub facts: Vec<FactSource>,
}

fn has_top_keys(version: Version, members: &Map<String, Value>) -> bool
    ensures { result ≡ only (keys_of_top version) (members_view members.now.entries) }
{
    match version {
        Version::First | Version::Second => has_no_other(
            members,
            ["version", "facts", "enums", "description"].as_slice(),
        ),
        Version::Law => has_no_other(
            members,
            ["version", "facts", "enums", "tables", "description"].as_slice(),
        ),
    }
}

fn version_among(value: &Value, members: &Map<String, Value>) -> Option<Version>
    ensures { result ≡ version_with (json value.now) (members_view members.now.entries) }
{
    let version = version_named(text_under(value, "version")?)?;
    if !has_top_keys(version, members) {
        return None;
    }
    if !may_be_text(value.get("description")) {
        return None;
    }
    Some(version)
}

// The version of an object that has the keys of a dictionary.
fn version_of_value(value: &Value) -> Option<Version>
    ensures { result ≡ version_in (json value.now) }
{
    version_among(value, value.as_object()?)
}

fn items_under_facts(value: &Value) -> Option<&Vec<Value>>
    ensures { option_map (λ v. items_view v.now.items) result ≡ option_and_then as_array
        (get (codes "facts") (json value.now)) }
{
    value.get("facts")?.as_array()
}

// The facts in their order, or the number of the first that isn't of the form.
fn read_facts(
    alloc: Global,
    version: Version,
    tables: &[LookupTable],
    items: &[Value],
) -> Result<Vec<FactSource>, TreeFault>
    requires { length items.now < 2 ^ 32 }
    ensures exact { Yields (λ v. map fact_view v.items) result (facts_of version tables.now 1 (items_view items.now)) }
    ensures kind { IfErr result IsOfShape }
{
    let mut facts = Vec::new(alloc);
    let mut number = 0u32;
    for item in items {
        number += 1;
        match read_fact(alloc, version, tables, item) {
            Ok(fact) => facts.push(fact)?,
            Err(ReadFault::Shape) => return Err(TreeFault::Shape(number)),
            Err(ReadFault::NoMemory) => return Err(TreeFault::NoMemory),
        }
    }
    Ok(facts)
}

#[tactic(auto, unfolding(crate::specs::DictParsing::dictionary_of))]
fn read_value(alloc: Global, value: &Value) -> Result<Found, TreeFault>
    requires { HasFewFacts (json value.now) }
    ensures exact { Yields read_view result (dictionary_of (json value.now)) }
    ensures kind { IfErr result IsOfShape }
{
    let Some(version) = version_of_value(value) else {
        return Err(TreeFault::Shape(0));
    };
    let enums = match read_enums(alloc, value.get("enums")) {
        Ok(enums) => enums,
        Err(ReadFault::Shape) => return Err(TreeFault::Shape(0)),
        Err(ReadFault::NoMemory) => return Err(TreeFault::NoMemory),
    };
    let tables = match read_tables(alloc, enums.as_slice(), value.get("tables")) {
        Ok(tables) => tables,
        Err(ReadFault::Shape) => return Err(TreeFault::Shape(0)),
        Err(ReadFault::NoMemory) => return Err(TreeFault::NoMemory),
    };
    let Some(items) = items_under_facts(value) else {
        return Err(TreeFault::Shape(0));
    };
    let facts = read_facts(alloc, version, tables.as_slice(), items.as_slice())?;
    if let Some(what) = first_passed(enums.as_slice(), facts.as_slice()) {
        return Err(TreeFault::TooMany(what));
    }
    if let Some(number) = first_deep(facts.as_slice()) {
        return Err(TreeFault::TooDeep(number));
    }
    Ok(Found {
        enums,
        tables,
        facts,
    })
}

fn read_json(alloc: Global, bytes: &[u8]) -> Result<Value, TreeFault>
    ensures { BytesAre json bytes.now result }
{
    match Value::from_slice(alloc, bytes) {
        Ok(value) => Ok(value),
        Err(error) => {
            if error.is_memory() {
                return Err(TreeFault::NoMemory);
            }
            Err(TreeFault::NotJson)
        }
    }
}

// Want of memory, the only fault of a list that may stand there.
fn want_of_memory(fault: ListFault) -> TreeFault
    requires { fault ≡ list_faults.NoMemory }
    ensures { result ≡ NoMemory }
{
    match fault {
        ListFault::NoMemory => TreeFault::NoMemory,
        ListFault::Same => unreachable!(),
        ListFault::Empty => unreachable!(),
    }
}

// Appends a list that was read.
fn add_list(lists: &mut EnumLists, list: EnumSource) -> Result<(), TreeFault>
    requires few { length lists.old < 200 }
    requires fit { IsTrue (may_follow lists.old (listed_view list)) }
    ensures appended { OnOk result (lists.new ≡ lists.old ++ listed_view list ∷ []) }
    ensures memory { IfErr result (λ fault. fault ≡ NoMemory) }
{
    match lists.add(list.name, list.options) {
        Ok(()) => Ok(()),
        Err(fault) => Err(want_of_memory(fault)),
    }
}

fn lists_of(alloc: Global, enums: Vec<EnumSource>) -> Result<EnumLists, TreeFault>
    requires few { length enums.items ≤ 200 }
    requires fit { IsTrue (may_all_follow [] (map listed_view enums.items)) }
    ensures lists { IfOk result (λ lists. lists ≡ map listed_view enums.items) }
    ensures memory { IfErr result (λ fault. fault ≡ NoMemory) }
{
    let mut lists = EnumLists::new(alloc);
    for list in enums {
        add_list(&mut lists, list)?;
    }
    Ok(lists)
}

// The dictionary of what was read.
fn keep(alloc: Global, found: Found) -> Result<DictSource, TreeFault>
    requires valid { IsValid (read_view found) }
    requires lists { IsTrue (may_all_follow [] (read_view found).enums) }
    ensures kept { IfOk result (λ source. dictionary_view source ≡ read_view found) }
    ensures memory { IfErr result (λ fault. fault ≡ NoMemory) }
{
    let Found {
        enums,
        tables,
        facts,
    } = found;
    let lists = lists_of(alloc, enums)?;
    match DictSource::of_facts(alloc, lists, tables, facts) {
        Ok(source) => Ok(source),
        Err(_) => Err(TreeFault::NoMemory),
    }
}

/// The dictionary that the bytes spell, or the first fault.
pub fn read(alloc: Global, bytes: &[u8]) -> Result<DictSource, TreeFault>
    ensures { BytesGive bytes.now (seen dictionary_view result) }
{
    if bytes.len() > MOST_BYTES {
        return Err(TreeFault::TooLong);
    }
    let value = read_json(alloc, bytes)?;
    let found = read_value(alloc, &value)?;
    keep(alloc, found)
}
