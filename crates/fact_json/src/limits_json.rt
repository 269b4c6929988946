// Reads the limits of a writable fact.
ghost use Rattle.std.specs.Prelude.{◌≡◌, map, option_map, string_bytes};
ghost use Rattle.serde_json.specs.View.{view as json, items_view};
ghost use Rattle.dict_source.specs.Facts.{limit_view};
ghost use Rattle.dict_source.specs.Parts.{Gives};
ghost use Rattle.fact_json.specs.FactParsing.{limit_name, bound_under, limit_of, limit_list, limits_in};

use crate::members::two_texts_of;
use dict_source::{LimitText, ReadFault};
use serde_json::Value;
use std::alloc::Global;

#[derive(Clone, Copy)]
enum LimitName {
    Min,
    Max,
    MaxLength,
    Check,
}

fn name_of_limit(name: &str) -> Option<LimitName>
    ensures { result ≡ limit_name name.now }
{
    match name {
        "Min" => Some(LimitName::Min),
        "Max" => Some(LimitName::Max),
        "MaxLength" => Some(LimitName::MaxLength),
        "Check" => Some(LimitName::Check),
        _ => None,
    }
}

fn limit_under(name: LimitName, text: String) -> LimitText
    ensures { limit_view result ≡ bound_under name (string_bytes text) }
{
    match name {
        LimitName::Min => LimitText::Min(text),
        LimitName::Max => LimitText::Max(text),
        LimitName::MaxLength => LimitText::MaxLength(text),
        LimitName::Check => LimitText::Check(text),
    }
}

fn read_limit(alloc: Global, value: &Value) -> Result<LimitText, ReadFault>
    ensures { Gives limit_view result (limit_of (json value.now)) }
{
    let Some(items) = value.as_array() else {
        return Err(ReadFault::Shape);
    };
    let Some((name, text)) = two_texts_of(items.as_slice()) else {
        return Err(ReadFault::Shape);
    };
    let Some(name) = name_of_limit(name) else {
        return Err(ReadFault::Shape);
    };
    Ok(limit_under(name, String::from_str(alloc, text)?))
}

fn read_limit_list(alloc: Global, items: &[Value]) -> Result<Vec<LimitText>, ReadFault>
    ensures { Gives (λ v. map limit_view v.items) result (limit_list (items_view items.now)) }
{
    let mut limits = Vec::new(alloc);
    for item in items {
        let limit = read_limit(alloc, item)?;
        limits.push(limit)?;
    }
    Ok(limits)
}

/// The limits, none where there is no such member.
pub fn read_limits(alloc: Global, value: Option<&Value>) -> Result<Vec<LimitText>, ReadFault>
    ensures { Gives (λ v. map limit_view v.items) result (limits_in (option_map (λ v. json v.now) value.entry)) }
{
    let Some(value) = value else {
        return Ok(Vec::new(alloc));
    };
    let Some(items) = value.as_array() else {
        return Err(ReadFault::Shape);
    };
    read_limit_list(alloc, items.as_slice())
}
