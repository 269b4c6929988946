// The limits of facts, and the first that doesn't fit.
ghost use Rattle.std.specs.Prelude.{◌≡◌, map};
ghost use Rattle.std.specs.List.{list_any};
ghost use Rattle.text_checks.specs.Tables.{check_names};
ghost use Rattle.value_text.specs.Values as values;
ghost use Rattle.dict_source.specs.Facts.{fact_view, limit_view, stated_view};
ghost use Rattle.dict_types.specs.BadLimit.{Gives, bound_value as value_of_bound, fact_limits as limits_of_fact, has_twice as twice, is_again as again, is_greatest as greatest, is_least as least, is_max_length as longest, is_text as text_type, length_at as length_of_text, length_in as length_within, limit_at, limits_at, ordered_value as value_in_order, takes_text as takes, value_length as length_of_value};
ghost use Rattle.dict_types.specs.declared.bad_limit.LimitFault.TheVariants.{NoMemory};

use crate::limit::Limit;
use dict_rules::find_check;
use dict_source::{FactSource, LimitText, TypeText};
use fact_values::{FactType, Value};
use std::alloc::{AllocError, AllocFailed, Global};
use text_checks::CheckTable;
use value_text::{EnumLists, TextFault, read};

/// Why a fact has no limits.
#[derive(Clone, Copy, Debug, PartialEq, Eq)]
pub enum LimitFault {
    /// One doesn't fit the fact, or stands twice.
    BadLimit,
    NoMemory,
}

impl From<AllocError> for LimitFault {
    ghost from_gives = { λ _ fault. fault ≡ NoMemory };

    fn from(_error: AllocError) -> LimitFault {
        LimitFault::NoMemory
    }
}

impl<T: Drop> From<AllocFailed<T>> for LimitFault {
    ghost from_gives = { λ _ fault. fault ≡ NoMemory };

    fn from(_error: AllocFailed<T>) -> LimitFault {
        LimitFault::NoMemory
    }
}

// ---- values of limits

// The value of one of the types whose values have an order.
fn ordered_value(
    alloc: Global,
    enums: &EnumLists,
    of: FactType,
    text: &str,
) -> Result<Value, TextFault>
    ensures { values.Gives (value_in_order enums.now of text.now) result }
{
    match of {
        FactType::Int => read(alloc, FactType::Int, enums, text),
        FactType::Dollar => read(alloc, FactType::Dollar, enums, text),
        FactType::Rational => read(alloc, FactType::Rational, enums, text),
        FactType::Day => read(alloc, FactType::Day, enums, text),
        FactType::Boolean
        | FactType::Text
        | FactType::Enum(_)
        | FactType::Collection(_)
        | FactType::Item(_) => Err(TextFault::BadValue),
    }
}

fn stated_value(
    alloc: Global,
    enums: &EnumLists,
    stated: &TypeText,
    text: &str,
) -> Result<Value, TextFault>
    ensures { values.Gives (value_of_bound enums.now (stated_view stated.now) text.now) result }
{
    match stated {
        TypeText::Scalar(of) => ordered_value(alloc, enums, *of, text),
        TypeText::EnumOf(_) => Err(TextFault::BadValue),
        TypeText::WritableList => Err(TextFault::BadValue),
        TypeText::ListOf(_) => Err(TextFault::BadValue),
        TypeText::ItemOf(_) => Err(TextFault::BadValue),
    }
}

fn bound_value(
    alloc: Global,
    enums: &EnumLists,
    stated: &TypeText,
    text: &str,
) -> Result<Value, LimitFault>
    ensures { Gives (λ v. v) (value_of_bound enums.now (stated_view stated.now) text.now) result }
{
    match stated_value(alloc, enums, stated, text) {
        Ok(value) => Ok(value),
        Err(TextFault::BadValue) => Err(LimitFault::BadLimit),
        Err(TextFault::NoMemory) => Err(LimitFault::NoMemory),
    }
}

fn length_in(number: i64) -> Option<u32>
    ensures { result ≡ length_within number }
{
    if number < 0 {
        return None;
    }
    if number > 1_000 {
        return None;
    }
    Some(number as u32)
}

fn value_length(value: &Value) -> Option<u32>
    ensures { result ≡ length_of_value value.now }
{
    match value {
        Value::Int(number) => length_in(number.get()),
        Value::Boolean(_)
        | Value::Dollar(_)
        | Value::Rational(_)
        | Value::Day(_)
        | Value::Text(_)
        | Value::Choice(..)
        | Value::Members(_)
        | Value::Item(_) => None,
    }
}

fn length_or_fault(value: &Value) -> Result<u32, LimitFault>
    ensures { Gives (λ n. n) (length_of_value value.now) result }
{
    match value_length(value) {
        None => Err(LimitFault::BadLimit),
        Some(length) => Ok(length),
    }
}

fn length_at(alloc: Global, enums: &EnumLists, text: &str) -> Result<u32, LimitFault>
    ensures { Gives (λ n. n) (length_of_text enums.now text.now) result }
{
    match read(alloc, FactType::Int, enums, text) {
        Ok(value) => length_or_fault(&value),
        Err(TextFault::BadValue) => Err(LimitFault::BadLimit),
        Err(TextFault::NoMemory) => Err(LimitFault::NoMemory),
    }
}

fn is_text(of: FactType) -> bool
    ensures { result ≡ text_type of }
{
    match of {
        FactType::Text => true,
        FactType::Boolean
        | FactType::Int
        | FactType::Dollar
        | FactType::Rational
        | FactType::Day
        | FactType::Enum(_)
        | FactType::Collection(_)
        | FactType::Item(_) => false,
    }
}

fn takes_text(stated: &TypeText) -> bool
    ensures { result ≡ takes (stated_view stated.now) }
{
    match stated {
        TypeText::Scalar(of) => is_text(*of),
        TypeText::EnumOf(_) => false,
        TypeText::WritableList => false,
        TypeText::ListOf(_) => false,
        TypeText::ItemOf(_) => false,
    }
}

// ---- limits

fn read_limit(
    alloc: Global,
    checks: &CheckTable,
    enums: &EnumLists,
    stated: &TypeText,
    limit: &LimitText,
) -> Result<Limit, LimitFault>
    ensures { Gives (λ l. l) (limit_at (check_names checks.now) enums.now (stated_view stated.now)
        (limit_view limit.now)) result }
{
    match limit {
        LimitText::Min(text) => Ok(Limit::Min(bound_value(alloc, enums, stated, text.as_str())?)),
        LimitText::Max(text) => Ok(Limit::Max(bound_value(alloc, enums, stated, text.as_str())?)),
        LimitText::MaxLength(text) => {
            if !takes_text(stated) {
                return Err(LimitFault::BadLimit);
            }
            Ok(Limit::MaxLength(length_at(alloc, enums, text.as_str())?))
        }
        LimitText::Check(name) => {
            if !takes_text(stated) {
                return Err(LimitFault::BadLimit);
            }
            Ok(Limit::Check(find_check(checks, name.as_str()).unwrap_or(0)))
        }
    }
}

fn read_limits(
    alloc: Global,
    checks: &CheckTable,
    enums: &EnumLists,
    stated: &TypeText,
    limits: &[LimitText],
) -> Result<Vec<Limit>, LimitFault>
    ensures { Gives (λ list. list.items) (limits_at (check_names checks.now) enums.now (stated_view stated.now)
        (map limit_view limits.now)) result }
{
    let mut out = Vec::new(alloc);
    for limit in limits {
        let found = read_limit(alloc, checks, enums, stated, limit)?;
        out.push(found)?;
    }
    Ok(out)
}

// ---- limits that stand twice

fn is_least(limit: &LimitText) -> bool
    ensures { result ≡ least (limit_view limit.now) }
{
    match limit {
        LimitText::Min(_) => true,
        LimitText::Max(_) => false,
        LimitText::MaxLength(_) => false,
        LimitText::Check(_) => false,
    }
}

fn is_greatest(limit: &LimitText) -> bool
    ensures { result ≡ greatest (limit_view limit.now) }
{
    match limit {
        LimitText::Min(_) => false,
        LimitText::Max(_) => true,
        LimitText::MaxLength(_) => false,
        LimitText::Check(_) => false,
    }
}

fn is_max_length(limit: &LimitText) -> bool
    ensures { result ≡ longest (limit_view limit.now) }
{
    match limit {
        LimitText::Min(_) => false,
        LimitText::Max(_) => false,
        LimitText::MaxLength(_) => true,
        LimitText::Check(_) => false,
    }
}

fn is_again(limit: &LimitText, other: &LimitText) -> bool
    ensures { result ≡ again (limit_view limit.now) (limit_view other.now) }
{
    match limit {
        LimitText::Min(_) => is_least(other),
        LimitText::Max(_) => is_greatest(other),
        LimitText::MaxLength(_) => is_max_length(other),
        LimitText::Check(_) => false,
    }
}

fn stands_again(limit: &LimitText, later: &[LimitText]) -> bool
    ensures { result ≡ list_any (again (limit_view limit.now)) (map limit_view later.now) }
{
    for other in later {
        if is_again(limit, other) {
            return true;
        }
    }
    false
}

fn has_twice(limits: &[LimitText]) -> bool
    ensures { result ≡ twice (map limit_view limits.now) }
{
    for (i, limit) in limits.iter().enumerate() {
        if stands_again(limit, &limits[i + 1..]) {
            return true;
        }
    }
    false
}

/// The limits of the fact.
pub fn fact_limits(
    alloc: Global,
    checks: &CheckTable,
    enums: &EnumLists,
    fact: &FactSource,
) -> Result<Vec<Limit>, LimitFault>
    ensures { Gives (λ list. list.items) (limits_of_fact (check_names checks.now) enums.now (fact_view fact.now))
        result }
{
    if has_twice(fact.limits.as_slice()) {
        return Err(LimitFault::BadLimit);
    }
    read_limits(alloc, checks, enums, &fact.stated, fact.limits.as_slice())
}
