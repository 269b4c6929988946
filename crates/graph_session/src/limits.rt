// The limits of a fact, and what they say of a value.
ghost use Rattle.std.specs.Prelude.{◌≡◌, ◌<◌, ◌≤◌, ◌^◌, length};
ghost use Rattle.std.specs.List.{All};
ghost use Rattle.text_checks.specs.Tables.{named_checks};
ghost use Rattle.dict_source.specs.Dictionary.{number_from};
ghost use Rattle.graph_session.specs.Judging.{HasCheck, IsMeasured, breaks as breaks_limit, fails as fails_check, text_of as bytes_of};

use dict_types::Limit;
use fact_values::{Value, compare};
use std::cmp::Ordering;
use text_checks::CheckTable;

// The bytes of a Text: none of another value.
fn text_of(value: &Value) -> &str
    ensures text { result.now ≡ bytes_of value.now }
    ensures short { length result.now ≤ 1000 }
{
    match value {
        Value::Text(text) => text.as_str(),
        Value::Boolean(_)
        | Value::Int(_)
        | Value::Dollar(_)
        | Value::Rational(_)
        | Value::Day(_)
        | Value::Choice(..)
        | Value::Members(_)
        | Value::Item(_) => "",
    }
}

fn breaks(value: &Value, limit: &Limit) -> bool
    requires { IsMeasured value.now limit.now }
    ensures { result ≡ breaks_limit value.now limit.now }
{
    match limit {
        Limit::Min(least) => compare(value, least) == Ordering::Less,
        Limit::Max(greatest) => compare(value, greatest) == Ordering::Greater,
        Limit::MaxLength(most) => text_of(value).len() > *most as usize,
        Limit::Check(_) => false,
    }
}

/// The place, from 1, of the first limit that the value breaks.
pub fn first_broken(limits: &[Limit], value: &Value) -> Option<u32>
    requires measured { All (IsMeasured value.now) limits.now }
    requires few { length limits.now < 2 ^ 32 }
    ensures { result ≡ number_from (breaks_limit value.now) 1 limits.now }
{
    for (i, limit) in limits.iter().enumerate() {
        if breaks(value, limit) {
            return Some(i as u32 + 1);
        }
    }
    None
}

fn fails(checks: &CheckTable, value: &Value, limit: &Limit) -> bool
    requires { HasCheck (length checks.now.checks.items) limit.now }
    ensures { result ≡ fails_check (named_checks checks.now) value.now limit.now }
{
    match limit {
        Limit::Min(_) => false,
        Limit::Max(_) => false,
        Limit::MaxLength(_) => false,
        Limit::Check(place) => !checks.run(*place, text_of(value)),
    }
}

/// The place, from 1, of the first limit whose check says no to the value.
pub fn first_failed(checks: &CheckTable, limits: &[Limit], value: &Value) -> Option<u32>
    requires there { All (HasCheck (length checks.now.checks.items)) limits.now }
    requires few { length limits.now < 2 ^ 32 }
    ensures { result ≡ number_from (fails_check (named_checks checks.now) value.now) 1 limits.now }
{
    for (i, limit) in limits.iter().enumerate() {
        if fails(checks, value, limit) {
            return Some(i as u32 + 1);
        }
    }
    None
}
