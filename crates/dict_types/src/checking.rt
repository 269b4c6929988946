// All rules of paths, types and limits, in their order: the types, constants and limits of a dictionary, or its first fault.
ghost use Rattle.std.specs.Prelude.{◌≡◌, ◌≤◌, IfErr, IfOk, length};
ghost use Rattle.text_checks.specs.Tables.{check_names};
ghost use Rattle.dict_source.specs.Dictionary.{dictionary_view};
ghost use Rattle.dict_source.specs.Facts.{fact_size, fact_view};
ghost use Rattle.dict_types.specs.BadLimit.{fact_limits as limits_in};
ghost use Rattle.dict_rules.specs.Rules.{first_fault as fault_by_rules, rule_order};
ghost use Rattle.dict_types.specs.DictFaults.{IsFirstFault, IsTypedDictionary};
ghost use Rattle.dict_types.specs.Typed.{Finds, Refuses, at_fact, limits_of, or_bad_limit, typed_dictionary, typed_fact, typed_facts};
ghost use Rattle.node_types.specs.FactTyping.{fact_typed};

use crate::bad_limit::{LimitFault, fact_limits};
use crate::typed::{Limits, Typed, TypedFact};
use dict_rules::{Rule, TypeFault, first_fault};
use dict_source::{DictSource, FactSource};
use fact_values::FactType;
use node_types::{NodeFault, fact_values, type_fact};
use std::alloc::Global;
use text_checks::CheckTable;

// The fault of the first rule of paths and checks that is broken.
fn first_of_rules(source: &DictSource, checks: &CheckTable) -> Option<TypeFault>
    ensures { result ≡ fault_by_rules (dictionary_view source.now) (check_names checks.now) rule_order }
{
    first_fault(
        source,
        checks,
        &[
            Rule::BadPath,
            Rule::DuplicatePath,
            Rule::NoCollection,
            Rule::UnknownPath,
            Rule::WrongPlace,
            Rule::UnknownCheck,
        ],
    )
}

fn type_of_fact(
    alloc: Global,
    source: &DictSource,
    number: u32,
    fact: &FactSource,
) -> Result<FactType, TypeFault>
    requires { fact_size (fact_view fact.now) ≤ 40000 }
    ensures { Finds (λ t. t) (at_fact number (fact_typed (dictionary_view source.now) number (fact_view fact.now)))
        result }
{
    match type_fact(alloc, source, number, fact) {
        Ok(found) => Ok(found),
        Err(NodeFault::IllTyped(node)) => Err(TypeFault::IllTyped(number, node)),
        Err(NodeFault::NoMemory) => Err(TypeFault::NoMemory),
    }
}

fn type_and_constants(
    alloc: Global,
    source: &DictSource,
    number: u32,
    fact: &FactSource,
) -> Result<TypedFact, TypeFault>
    requires { fact_size (fact_view fact.now) ≤ 40000 }
    ensures { Finds (λ t. t) (typed_fact (dictionary_view source.now) number (fact_view fact.now)) result }
{
    let stated = type_of_fact(alloc, source, number, fact)?;
    let constants = fact_values(alloc, source.enums(), fact)?;
    Ok(TypedFact::new(stated, constants))
}

fn type_facts(alloc: Global, source: &DictSource) -> Result<Vec<TypedFact>, TypeFault>
    ensures { Finds (λ list. list.items) (typed_facts (dictionary_view source.now) 1 (dictionary_view source.now).facts)
        result }
{
    let facts = source.facts();
    let mut out = Vec::new(alloc);
    for (i, fact) in facts.iter().enumerate() {
        let typed = type_and_constants(alloc, source, i as u32 + 1, fact)?;
        out.push(typed)?;
    }
    Ok(out)
}

fn limits_of_fact(
    alloc: Global,
    source: &DictSource,
    checks: &CheckTable,
    number: u32,
    fact: &FactSource,
) -> Result<Limits, TypeFault>
    ensures { Finds (λ l. l) (or_bad_limit number (limits_in (check_names checks.now) (dictionary_view source.now).enums
        (fact_view fact.now))) result }
{
    match fact_limits(alloc, checks, source.enums(), fact) {
        Ok(list) => Ok(Limits::new(list)),
        Err(LimitFault::BadLimit) => Err(TypeFault::BadLimit(number)),
        Err(LimitFault::NoMemory) => Err(TypeFault::NoMemory),
    }
}

fn limits_of_facts(
    alloc: Global,
    source: &DictSource,
    checks: &CheckTable,
) -> Result<Vec<Limits>, TypeFault>
    ensures { Finds (λ list. list.items) (limits_of (check_names checks.now) (dictionary_view source.now) 1
        (dictionary_view source.now).facts) result }
{
    let facts = source.facts();
    let mut out = Vec::new(alloc);
    for (i, fact) in facts.iter().enumerate() {
        let limits = limits_of_fact(alloc, source, checks, i as u32 + 1, fact)?;
        out.push(limits)?;
    }
    Ok(out)
}

// What is found of the dictionary: rules of paths and checks first, then types, then limits.
fn judge(alloc: Global, source: &DictSource, checks: &CheckTable) -> Result<Typed, TypeFault>
    ensures { Finds (λ t. t) (typed_dictionary (dictionary_view source.now) (check_names checks.now)) result }
{
    if let Some(fault) = first_of_rules(source, checks) {
        return Err(fault);
    }
    let facts = type_facts(alloc, source)?;
    let limits = limits_of_facts(alloc, source, checks)?;
    Ok(Typed::new(facts, limits))
}

/// The types, constants and limits of a dictionary, or its first fault: paths and checks first, rule by rule, then types,
/// then limits; of one kind the first fact's, and of a fact its first node's.
pub fn check(alloc: Global, source: &DictSource, checks: &CheckTable) -> Result<Typed, TypeFault>
    ensures typed { IfOk result (IsTypedDictionary (dictionary_view source.now) (check_names checks.now)) }
    ensures refused { IfErr result (Refuses (IsFirstFault (dictionary_view source.now) (check_names checks.now))) }
    ensures facts { IfOk result (λ typed. length typed.facts ≡ length source.now.facts) }
    ensures limits { IfOk result (λ typed. length typed.limits ≡ length source.now.facts) }
{
    judge(alloc, source, checks)
}
