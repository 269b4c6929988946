// The members of a JSON object, and texts in it.
ghost use Rattle.std.specs.Prelude.{◌≡◌, map, option_map, string_bytes};
ghost use Rattle.std.specs.List.{list_any};
ghost use Rattle.std.specs.Str.{bytes_eq};
ghost use Rattle.serde_json.specs.View.{view as json, items_view, members_view};
ghost use Rattle.fact_json.specs.Parsing.{two_texts};
ghost use Rattle.dict_source.specs.Parts.{Gives};
ghost use Rattle.fact_json.specs.FactParsing.{has_no_other as only, is_optional_text, text_at, text_in};

use dict_source::ReadFault;
use serde_json::{Map, Value};
use std::alloc::Global;

fn is_among(key: &str, keys: &[&str]) -> bool
    ensures { result ≡ list_any (bytes_eq key.now) (map (λ known. known.now) keys.now) }
{
    for known in keys {
        if key == *known {
            return true;
        }
    }
    false
}

/// Has the object no key but these?
pub fn has_no_other(members: &Map<String, Value>, keys: &[&str]) -> bool
    ensures { result ≡ only (map (λ key. key.now) keys.now) (members_view members.now.entries) }
{
    for (key, _) in members.iter() {
        if !is_among(key.as_str(), keys) {
            return false;
        }
    }
    true
}

/// The text under the key.
pub fn text_under<'a>(value: &'a Value, key: &str) -> Option<&'a str>
    ensures { option_map (λ text. text.now) result ≡ text_at key.now (json value.now) }
{
    value.get(key)?.as_str()
}

/// A copy of the text under the key.
pub fn read_text_under(alloc: Global, value: &Value, key: &str) -> Result<String, ReadFault>
    ensures { Gives string_bytes result (text_at key.now (json value.now)) }
{
    let Some(text) = text_under(value, key) else {
        return Err(ReadFault::Shape);
    };
    Ok(String::from_str(alloc, text)?)
}

/// A copy of the text, where there is such a member.
pub fn read_text_in(alloc: Global, value: Option<&Value>) -> Result<Option<String>, ReadFault>
    ensures { Gives (option_map string_bytes) result (text_in (option_map (λ v. json v.now) value.entry)) }
{
    let Some(value) = value else {
        return Ok(None);
    };
    let Some(text) = value.as_str() else {
        return Err(ReadFault::Shape);
    };
    Ok(Some(String::from_str(alloc, text)?))
}

/// Is there nothing, or a text?
pub fn may_be_text(value: Option<&Value>) -> bool
    ensures { result ≡ is_optional_text (option_map (λ v. json v.now) value.entry) }
{
    match value {
        None => true,
        Some(value) => value.is_string(),
    }
}

/// The two texts, where there are two items and both are texts.
pub fn two_texts_of(items: &[Value]) -> Option<(&str, &str)>
    ensures { option_map (λ p. (p.0.now, p.1.now)) result ≡ two_texts (items_view items.now) }
{
    if items.len() != 2 {
        return None;
    }
    let first = items[0].as_str()?;
    let second = items[1].as_str()?;
    Some((first, second))
}
