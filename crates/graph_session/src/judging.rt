// Whether a text spells a value that may be a fact's answer.
ghost use Rattle.std.specs.Prelude.{◌≡◌, ◌≤◌, length, None, Some, IfErr, IfOk, IsTrue};
ghost use Rattle.std.specs.List.{All};
ghost use Rattle.text_checks.specs.Tables.{named_checks};
ghost use Rattle.value_text.specs.Values.{Gives};
ghost use Rattle.dict_source.specs.Finding.{IsNumber};
ghost use Rattle.node_types.specs.StatedTypes.{type_at};
ghost use Rattle.dict_meaning.specs.Fits.{is_answered_by};
ghost use Rattle.graph_session.specs.Judging.{IsMeasured, first_failed as first_failing, is_given, limits_of as kept_limits, value_spelled};
ghost use Rattle.graph_session.specs.Refusals.{Refused, SameChecks, first_of, limit_refusals, value_refusals};
ghost use Rattle.graph_session.specs.Rules.{rules, tree_of};

use crate::limits::{first_broken, first_failed};
use crate::reply::Refusal;
use dict_types::Limit;
use dictionary::Dictionary;
use fact_values::{FactType, Value};
use std::alloc::Global;
use text_checks::CheckTable;
use value_text::{TextFault, read};

fn type_of(dict: &Dictionary, fact: u32) -> FactType
    requires { IsNumber (tree_of (rules dict.now)).facts fact }
    ensures { type_at (tree_of (rules dict.now)) fact ≡ Some result }
{
    let _accepted = dict.source();
    dict.typed().fact_type(fact)
}

fn limits_of(dict: &Dictionary, fact: u32) -> &[Limit]
    requires { IsNumber (tree_of (rules dict.now)).facts fact }
    ensures limits { result.now ≡ kept_limits dict.now.typed fact }
    ensures few { length result.now ≤ 8 }
{
    let _accepted = dict.source();
    dict.typed().limits(fact)
}

/// The value of the fact's type that the text spells.
pub fn read_value(
    alloc: Global,
    dict: &Dictionary,
    fact: u32,
    text: &str,
) -> Result<Value, TextFault>
    requires number { IsNumber (tree_of (rules dict.now)).facts fact }
    requires given { IsTrue (is_given (tree_of (rules dict.now)) fact) }
    ensures { Gives (value_spelled (tree_of (rules dict.now)) fact text.now) result }
{
    read(alloc, type_of(dict, fact), dict.source().enums(), text)
}

// The place of the first limit whose check says no.
fn failed_check(dict: &Dictionary, checks: &CheckTable, fact: u32, value: &Value) -> Option<u32>
    requires number { IsNumber (tree_of (rules dict.now)).facts fact }
    requires same_checks { SameChecks (rules dict.now) (named_checks checks.now) }
    ensures { result ≡ first_failing dict.now.checks (kept_limits dict.now.typed fact) (Some value.now) }
{
    let _accepted = dict.source();
    first_failed(checks, limits_of(dict, fact), value)
}

// The first refusal of the value by the fact's limits and checks.
fn refused_by_limits(
    dict: &Dictionary,
    checks: &CheckTable,
    fact: u32,
    value: &Value,
) -> Option<Refusal>
    requires number { IsNumber (tree_of (rules dict.now)).facts fact }
    requires measured { All (IsMeasured value.now) (kept_limits dict.now.typed fact) }
    requires same_checks { SameChecks (rules dict.now) (named_checks checks.now) }
    ensures { result ≡ first_of (limit_refusals (rules dict.now) fact (Some value.now)) }
{
    if let Some(place) = first_broken(limits_of(dict, fact), value) {
        return Some(Refusal::Limit(place));
    }
    if let Some(place) = failed_check(dict, checks, fact, value) {
        return Some(Refusal::Check(place));
    }
    None
}

/// The value that the text spells, where it may be the fact's answer.
#[inline(always)]
pub fn judge_value(
    alloc: Global,
    dict: &Dictionary,
    checks: &CheckTable,
    fact: u32,
    text: &str,
) -> Result<Value, Refusal>
    requires number { IsNumber (tree_of (rules dict.now)).facts fact }
    requires answered { IsTrue (is_answered_by (tree_of (rules dict.now)) fact) }
    requires same_checks { SameChecks (rules dict.now) (named_checks checks.now) }
    ensures value { IfOk result (λ v. value_spelled (tree_of (rules dict.now)) fact text.now ≡ Some v) }
    ensures allowed { IfOk result (λ _. first_of (value_refusals (rules dict.now) fact text.now) ≡ None) }
    ensures refused { IfErr result (λ r. Refused r (first_of (value_refusals (rules dict.now) fact text.now))) }
{
    let _accepted = dict.source();
    match read_value(alloc, dict, fact, text) {
        Err(TextFault::BadValue) => Err(Refusal::BadValue),
        Err(TextFault::NoMemory) => Err(Refusal::NoMemory),
        Ok(value) => match refused_by_limits(dict, checks, fact, &value) {
            None => Ok(value),
            Some(refusal) => Err(refusal),
        },
    }
}
