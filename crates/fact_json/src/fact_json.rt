// Reads a fact from its JSON value.
ghost use Rattle.std.specs.Prelude.{◌≡◌, map, option_map, option_and_then, string_bytes, codes, Some};
ghost use Rattle.serde_json.specs.Find.{as_array, get};
ghost use Rattle.serde_json.specs.View.{view as json, items_view, members_view};
ghost use Rattle.fact_paths.specs.Parsing.{fact_path_of};
ghost use Rattle.dict_source.specs.View.{view, box_view, pair_view};
ghost use Rattle.dict_source.specs.Facts.{fact_view, stated_view, conditional_view};
ghost use Rattle.fact_json.specs.Parsing.{pair_tree, tree_of};
ghost use Rattle.dict_source.specs.Parts.{Gives};
ghost use Rattle.fact_json.specs.StatedParsing.{writable_stated, derived_stated};
ghost use Rattle.fact_json.specs.FactParsing.{conditional_in, derived_keys as keys_of_derived, fact_of, fact_with, has_no_other as only, if_of_version, text_at, text_in, tree_in, writable_fact, derived_fact, writable_keys};

use crate::expr_json::read_boxed;
use crate::limits_json::read_limits;
use crate::members::{has_no_other, read_text_in, read_text_under, text_under};
use crate::profile::has_operators;
use crate::stated_json::{read_derived_type, read_writable_type};
use crate::version::Version;
use dict_source::{Conditional, Expr, FactSource, LookupTable, ReadFault, TypeText};
use fact_paths::{FactPath, PathFault, read_fact_path};
use serde_json::{Map, Value};
use std::alloc::Global;

// What the text spells, if anything.
fn read_path(alloc: Global, text: &str) -> Result<Option<FactPath>, ReadFault>
    ensures { Gives (λ path. path) result (Some (fact_path_of text.now)) }
{
    match read_fact_path(alloc, text) {
        Ok(path) => Ok(Some(path)),
        Err(PathFault::BadPath) => Ok(None),
        Err(PathFault::NoMemory) => Err(ReadFault::NoMemory),
    }
}

// The expression, where there is such a member.
fn read_optional(
    alloc: Global,
    tables: &[LookupTable],
    value: Option<&Value>,
) -> Result<Option<Box<Expr>>, ReadFault>
    ensures { Gives (option_map box_view) result (tree_in tables.now (option_map (λ v. json v.now) value.entry)) }
{
    let Some(value) = value else {
        return Ok(None);
    };
    Ok(Some(read_boxed(alloc, tables, value)?))
}

// `[C,V]`
fn read_two(
    alloc: Global,
    tables: &[LookupTable],
    items: &[Value],
) -> Result<(Box<Expr>, Box<Expr>), ReadFault>
    ensures { Gives pair_view result (pair_tree tables.now (items_view items.now)) }
{
    if items.len() != 2 {
        return Err(ReadFault::Shape);
    }
    let test = read_boxed(alloc, tables, &items[0])?;
    let value = read_boxed(alloc, tables, &items[1])?;
    Ok((test, value))
}

fn read_pair_of(
    alloc: Global,
    tables: &[LookupTable],
    value: &Value,
) -> Result<(Box<Expr>, Box<Expr>), ReadFault>
    ensures { Gives pair_view result (option_and_then (pair_tree tables.now) (as_array (json value.now))) }
{
    let Some(items) = value.as_array() else {
        return Err(ReadFault::Shape);
    };
    read_two(alloc, tables, items.as_slice())
}

// The conditional, where there is such a member.
fn read_conditional(
    alloc: Global,
    tables: &[LookupTable],
    value: Option<&Value>,
) -> Result<Option<(Box<Expr>, Box<Expr>)>, ReadFault>
    ensures { Gives (option_map pair_view) result (conditional_in tables.now (option_map (λ v. json v.now) value.entry)) }
{
    let Some(value) = value else {
        return Ok(None);
    };
    Ok(Some(read_pair_of(alloc, tables, value)?))
}

fn unboxed(expr: Option<Box<Expr>>) -> Option<Expr>
    ensures { option_map view result ≡ option_map box_view expr }
{
    match expr {
        None => None,
        Some(expr) => Some(Box::into_inner(expr)),
    }
}

fn conditional_of(pair: Option<(Box<Expr>, Box<Expr>)>) -> Option<Conditional>
    ensures { option_map conditional_view result ≡ option_map pair_view pair }
{
    match pair {
        None => None,
        Some((test, value)) => Some(Conditional {
            test: Box::into_inner(test),
            value: Box::into_inner(value),
        }),
    }
}

// The type that a writable fact states.
fn read_writable_stated(alloc: Global, value: &Value) -> Result<TypeText, ReadFault>
    ensures { Gives stated_view result (option_and_then writable_stated (text_at (codes "writable") (json value.now))) }
{
    match text_under(value, "writable") {
        None => Err(ReadFault::Shape),
        Some(text) => read_writable_type(alloc, text),
    }
}

// The type that a derived fact states.
fn read_derived_stated(alloc: Global, value: &Value) -> Result<TypeText, ReadFault>
    ensures { Gives stated_view result (option_and_then derived_stated (text_at (codes "derived") (json value.now))) }
{
    match text_under(value, "derived") {
        None => Err(ReadFault::Shape),
        Some(text) => read_derived_type(alloc, text),
    }
}

// How a derived fact follows from others.
fn read_main(alloc: Global, tables: &[LookupTable], value: &Value) -> Result<Box<Expr>, ReadFault>
    ensures { Gives box_view result (option_and_then (tree_of tables.now) (get (codes "is") (json value.now))) }
{
    match value.get("is") {
        None => Err(ReadFault::Shape),
        Some(form) => read_boxed(alloc, tables, form),
    }
}

#[tactic(auto, unfolding(crate::specs::FactParsing::writable_fact))]
fn read_writable(
    alloc: Global,
    tables: &[LookupTable],
    value: &Value,
) -> Result<FactSource, ReadFault>
    ensures { Gives fact_view result (writable_fact tables.now (json value.now)) }
{
    let path_text = read_text_under(alloc, value, "path")?;
    let limits = read_limits(alloc, value.get("limits"))?;
    let placeholder = read_optional(alloc, tables, value.get("placeholder"))?;
    let path = read_path(alloc, path_text.as_str())?;
    let stated = read_writable_stated(alloc, value)?;
    let description = read_text_in(alloc, value.get("description"))?;
    Ok(FactSource {
        path_text,
        path,
        stated,
        limits,
        main: None,
        conditional: None,
        placeholder: unboxed(placeholder),
        description,
    })
}

#[tactic(auto, unfolding(crate::specs::FactParsing::derived_fact))]
fn read_derived(
    alloc: Global,
    tables: &[LookupTable],
    value: &Value,
) -> Result<FactSource, ReadFault>
    ensures { Gives fact_view result (derived_fact tables.now (json value.now)) }
{
    let path_text = read_text_under(alloc, value, "path")?;
    let main = read_main(alloc, tables, value)?;
    let conditional = read_conditional(alloc, tables, value.get("conditional"))?;
    let placeholder = read_optional(alloc, tables, value.get("placeholder"))?;
    let path = read_path(alloc, path_text.as_str())?;
    let stated = read_derived_stated(alloc, value)?;
    let description = read_text_in(alloc, value.get("description"))?;
    Ok(FactSource {
        path_text,
        path,
        stated,
        limits: Vec::new(alloc),
        main: Some(Box::into_inner(main)),
        conditional: conditional_of(conditional),
        placeholder: unboxed(placeholder),
        description,
    })
}

fn has_writable_keys(members: &Map<String, Value>) -> bool
    ensures { result ≡ only writable_keys (members_view members.now.entries) }
{
    has_no_other(
        members,
        ["path", "writable", "limits", "placeholder", "description"].as_slice(),
    )
}

fn has_derived_keys(version: Version, members: &Map<String, Value>) -> bool
    ensures { result ≡ only (keys_of_derived version) (members_view members.now.entries) }
{
    match version {
        Version::First => has_no_other(
            members,
            ["path", "derived", "is", "placeholder", "description"].as_slice(),
        ),
        Version::Second | Version::Law => has_no_other(
            members,
            [
                "path",
                "derived",
                "is",
                "placeholder",
                "description",
                "conditional",
            ]
            .as_slice(),
        ),
    }
}

fn read_fact_with(
    alloc: Global,
    version: Version,
    tables: &[LookupTable],
    value: &Value,
    members: &Map<String, Value>,
) -> Result<FactSource, ReadFault>
    ensures { Gives fact_view result (fact_with version tables.now (json value.now) (members_view members.now.entries)) }
{
    if has_writable_keys(members) {
        return read_writable(alloc, tables, value);
    }
    if has_derived_keys(version, members) {
        return read_derived(alloc, tables, value);
    }
    Err(ReadFault::Shape)
}

// The fact, where the version has its operators.
fn if_of_version(version: Version, fact: FactSource) -> Result<FactSource, ReadFault>
    ensures { Gives fact_view result (if_of_version version (fact_view fact)) }
{
    if has_operators(version, &fact) {
        return Ok(fact);
    }
    drop(fact);
    Err(ReadFault::Shape)
}

/// The fact that the value spells in a dictionary of this version.
pub fn read_fact(
    alloc: Global,
    version: Version,
    tables: &[LookupTable],
    value: &Value,
) -> Result<FactSource, ReadFault>
    ensures { Gives fact_view result (fact_of version tables.now (json value.now)) }
{
    let Some(members) = value.as_object() else {
        return Err(ReadFault::Shape);
    };
    let fact = read_fact_with(alloc, version, tables, value, members)?;
    if_of_version(version, fact)
}
