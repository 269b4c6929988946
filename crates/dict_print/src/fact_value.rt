// Builds the JSON value of a fact.
ghost use Rattle.std.specs.Prelude.{◌≡◌, [], codes, map, option_map, string_bytes, IfOk, OnOk};
ghost use Rattle.std.specs.List.{All};
ghost use Rattle.serde_json.specs.Data.{array, no_members, put, string};
ghost use Rattle.serde_json.specs.View.{view as json, members_view};
ghost use Rattle.dict_source.specs.View.{view};
ghost use Rattle.fact_json.specs.Json.{json_of};
ghost use Rattle.dict_source.specs.Facts.{conditional_view, fact_view, stated_view};
ghost use Rattle.fact_json.specs.FactJson.{IsNamed, conditional_json, items_from, stated_text};
ghost use Rattle.dict_print.specs.DictionaryJson.{derived_json, derived_members, fact_json, put_some, writable_json, writable_members};

use crate::expr_value::expr_value;
use crate::limit_value::put_limits;
use crate::node_value::push_value;
use crate::stated::push_stated;
use dict_source::{Conditional, Expr, FactSource, TypeText};
use fact_values::NoMemory;
use serde_json::{Map, Value, json};
use std::alloc::Global;

/// Adds a member with a text.
pub fn put_text(
    members: &mut Map<String, Value>,
    alloc: Global,
    key: &str,
    text: &str,
) -> Result<(), NoMemory>
    ensures { OnOk result (members_view members.new.entries ≡ put key.now (string text.now)
        (members_view members.old.entries)) }
{
    let value = Value::try_from_str(alloc, text)?;
    Ok(serde_json::put(members, alloc, key, value)?)
}

// Adds a member with the text of a type.
fn put_stated(
    members: &mut Map<String, Value>,
    alloc: Global,
    key: &str,
    stated: &TypeText,
) -> Result<(), NoMemory>
    ensures member { OnOk result (members_view members.new.entries
        ≡ put key.now (string (stated_text (stated_view stated.now))) (members_view members.old.entries)) }
    ensures named { OnOk result (IsNamed (stated_view stated.now)) }
{
    let mut text = String::new(alloc);
    push_stated(&mut text, stated)?;
    Ok(serde_json::put(members, alloc, key, Value::String(text))?)
}

// Adds a member with an expression.
fn put_expr(
    members: &mut Map<String, Value>,
    alloc: Global,
    key: &str,
    expr: &Expr,
) -> Result<(), NoMemory>
    ensures { OnOk result (members_view members.new.entries ≡ put key.now (json_of (view expr.now))
        (members_view members.old.entries)) }
{
    let value = expr_value(alloc, expr)?;
    Ok(serde_json::put(members, alloc, key, value)?)
}

// Adds a member for what stands for an incomplete result, where there is such an expression.
fn put_placeholder(
    members: &mut Map<String, Value>,
    alloc: Global,
    placeholder: &Option<Expr>,
) -> Result<(), NoMemory>
    ensures { OnOk result (members_view members.new.entries ≡ put_some (codes "placeholder")
        (option_map json_of (option_map view placeholder.now)) (members_view members.old.entries)) }
{
    match placeholder {
        None => Ok(()),
        Some(expr) => put_expr(members, alloc, "placeholder", expr),
    }
}

fn put_words(
    members: &mut Map<String, Value>,
    alloc: Global,
    words: &String,
) -> Result<(), NoMemory>
    ensures { OnOk result (members_view members.new.entries ≡ put (codes "description")
        (string (string_bytes words.now)) (members_view members.old.entries)) }
{
    put_text(members, alloc, "description", words.as_str())
}

// Adds a member for what the fact is in words, where it says so.
fn put_description(
    members: &mut Map<String, Value>,
    alloc: Global,
    description: &Option<String>,
) -> Result<(), NoMemory>
    ensures { OnOk result (members_view members.new.entries ≡ put_some (codes "description")
        (option_map string (option_map string_bytes description.now)) (members_view members.old.entries)) }
{
    match description {
        None => Ok(()),
        Some(words) => put_words(members, alloc, words),
    }
}

// `[C,V]`
fn conditional_value(alloc: Global, conditional: &Conditional) -> Result<Value, NoMemory>
    ensures { IfOk result (λ v. json v ≡ conditional_json (conditional_view conditional.now)) }
{
    let test = expr_value(alloc, &conditional.test)?;
    let value = expr_value(alloc, &conditional.value)?;
    Ok(json!(in alloc; [test, value])?)
}

fn put_pair(
    members: &mut Map<String, Value>,
    alloc: Global,
    conditional: &Conditional,
) -> Result<(), NoMemory>
    ensures { OnOk result (members_view members.new.entries ≡ put (codes "conditional")
        (conditional_json (conditional_view conditional.now)) (members_view members.old.entries)) }
{
    let value = conditional_value(alloc, conditional)?;
    Ok(serde_json::put(members, alloc, "conditional", value)?)
}

// Adds a member for the conditional, where there is one.
fn put_conditional(
    members: &mut Map<String, Value>,
    alloc: Global,
    conditional: &Option<Conditional>,
) -> Result<(), NoMemory>
    ensures { OnOk result (members_view members.new.entries ≡ put_some (codes "conditional")
        (option_map conditional_json (option_map conditional_view conditional.now))
        (members_view members.old.entries)) }
{
    match conditional {
        None => Ok(()),
        Some(conditional) => put_pair(members, alloc, conditional),
    }
}

// Adds the members of a writable fact to none.
fn put_writable(
    members: &mut Map<String, Value>,
    alloc: Global,
    fact: &FactSource,
) -> Result<(), NoMemory>
    requires { members_view members.old.entries ≡ no_members }
    ensures members { OnOk result (members_view members.new.entries ≡ writable_members (fact_view fact.now)) }
    ensures named { OnOk result (IsNamed (fact_view fact.now).stated) }
{
    put_description(members, alloc, &fact.description)?;
    put_placeholder(members, alloc, &fact.placeholder)?;
    put_limits(members, alloc, fact.limits.as_slice())?;
    put_stated(members, alloc, "writable", &fact.stated)?;
    put_text(members, alloc, "path", fact.path_text.as_str())
}

fn writable_value(alloc: Global, fact: &FactSource) -> Result<Value, NoMemory>
    ensures value { IfOk result (λ v. json v ≡ writable_json (fact_view fact.now)) }
    ensures named { IfOk result (λ _. IsNamed (fact_view fact.now).stated) }
{
    let mut members = Map::new(alloc);
    put_writable(&mut members, alloc, fact)?;
    Ok(Value::Object(members))
}

// Adds the members of a fact that follows from others to none.
fn put_derived(
    members: &mut Map<String, Value>,
    alloc: Global,
    fact: &FactSource,
    main: &Expr,
) -> Result<(), NoMemory>
    requires { members_view members.old.entries ≡ no_members }
    ensures members { OnOk result (members_view members.new.entries ≡ derived_members (fact_view fact.now)
        (view main.now)) }
    ensures named { OnOk result (IsNamed (fact_view fact.now).stated) }
{
    put_description(members, alloc, &fact.description)?;
    put_placeholder(members, alloc, &fact.placeholder)?;
    put_conditional(members, alloc, &fact.conditional)?;
    put_expr(members, alloc, "is", main)?;
    put_stated(members, alloc, "derived", &fact.stated)?;
    put_text(members, alloc, "path", fact.path_text.as_str())
}

fn derived_value(alloc: Global, fact: &FactSource, main: &Expr) -> Result<Value, NoMemory>
    ensures value { IfOk result (λ v. json v ≡ derived_json (fact_view fact.now) (view main.now)) }
    ensures named { IfOk result (λ _. IsNamed (fact_view fact.now).stated) }
{
    let mut members = Map::new(alloc);
    put_derived(&mut members, alloc, fact, main)?;
    Ok(Value::Object(members))
}

fn fact_value(alloc: Global, fact: &FactSource) -> Result<Value, NoMemory>
    ensures value { IfOk result (λ v. json v ≡ fact_json (fact_view fact.now)) }
    ensures named { IfOk result (λ _. IsNamed (fact_view fact.now).stated) }
{
    match &fact.main {
        None => writable_value(alloc, fact),
        Some(main) => derived_value(alloc, fact, main),
    }
}

/// The array of the facts, in their order.
pub fn fact_values(alloc: Global, facts: &[FactSource]) -> Result<Value, NoMemory>
    ensures value { IfOk result (λ v. json v ≡ array (items_from fact_json (map fact_view facts.now))) }
    ensures named { IfOk result (λ _. All (λ f. IsNamed f.stated) (map fact_view facts.now)) }
{
    let mut items = Vec::new(alloc);
    for fact in facts {
        let value = fact_value(alloc, fact)?;
        push_value(&mut items, value)?;
    }
    Ok(Value::Array(items))
}
