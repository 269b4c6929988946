// The rules of paths and checks, and the first that is broken.
ghost use Rattle.std.specs.Prelude.{◌≡◌};
ghost use Rattle.text_checks.specs.Tables.{check_names};
ghost use Rattle.dict_source.specs.Dictionary.{dictionary_view};
ghost use Rattle.dict_source.specs.Facts.{fact_view};
ghost use Rattle.dict_rules.specs.Rules.{breaks as is_broken, fault_of as rule_fault, first_breaking as first_broken, first_fault as first_found};

use crate::bad_path::is_bad_path;
use crate::duplicate_path::is_duplicate;
use crate::fault::TypeFault;
use crate::no_collection::lacks_collection;
use crate::unknown_check::has_unknown_check;
use crate::unknown_path::has_unknown_path;
use crate::wrong_place::has_wrong_place;
use dict_source::{DictSource, FactSource};
use text_checks::CheckTable;

/// A rule of paths and checks.
#[derive(Clone, Copy, PartialEq, Eq)]
pub enum Rule {
    BadPath,
    DuplicatePath,
    NoCollection,
    UnknownPath,
    WrongPlace,
    UnknownCheck,
}

// Whether the fact breaks the rule.
fn breaks(
    source: &DictSource,
    checks: &CheckTable,
    rule: Rule,
    number: u32,
    fact: &FactSource,
) -> bool
    ensures { result ≡ is_broken (dictionary_view source.now) (check_names checks.now) rule number
        (fact_view fact.now) }
{
    match rule {
        Rule::BadPath => is_bad_path(source, number, fact),
        Rule::DuplicatePath => is_duplicate(source, number, fact),
        Rule::NoCollection => lacks_collection(source, number, fact),
        Rule::UnknownPath => has_unknown_path(source, number, fact),
        Rule::WrongPlace => has_wrong_place(source, number, fact),
        Rule::UnknownCheck => has_unknown_check(checks, fact),
    }
}

// The fault of a fact that breaks the rule.
fn fault_of(rule: Rule, number: u32) -> TypeFault
    ensures { result ≡ rule_fault rule number }
{
    match rule {
        Rule::BadPath => TypeFault::BadPath(number),
        Rule::DuplicatePath => TypeFault::DuplicatePath(number),
        Rule::NoCollection => TypeFault::NoCollection(number),
        Rule::UnknownPath => TypeFault::UnknownPath(number),
        Rule::WrongPlace => TypeFault::WrongPlace(number),
        Rule::UnknownCheck => TypeFault::UnknownCheck(number),
    }
}

// The first fact that breaks the rule.
fn first_breaking(source: &DictSource, checks: &CheckTable, rule: Rule) -> Option<u32>
    ensures { result ≡ first_broken (dictionary_view source.now) (check_names checks.now) rule }
{
    let facts = source.facts();
    for (i, fact) in facts.iter().enumerate() {
        let number = i as u32 + 1;
        if breaks(source, checks, rule, number, fact) {
            return Some(number);
        }
    }
    None
}

/// The fault of the first of the rules that a fact breaks, for the first fact that breaks it.
pub fn first_fault(source: &DictSource, checks: &CheckTable, rules: &[Rule]) -> Option<TypeFault>
    ensures { result ≡ first_found (dictionary_view source.now) (check_names checks.now) rules.now }
{
    for rule in rules {
        match first_breaking(source, checks, *rule) {
            None => {}
            Some(number) => return Some(fault_of(*rule, number)),
        }
    }
    None
}
