// Whether a dictionary is within its limits.
ghost use Rattle.std.specs.Prelude.{[], ◌≡◌, ◌+◌, ◌<◌, ◌≤◌, ◌↔◌, nat_lt, not, length, map, sum_by, count_by, IsTrue, MatchOption, option_map, if◌then◌else◌};
ghost use Rattle.std.specs.List.{list_any};
ghost use Rattle.dict_source.specs.Tree.{size, size_of_trees, size_of_cases, depth as depth_of, depth_of_trees, depth_of_cases};
ghost use Rattle.dict_source.specs.View.{view, trees_view, cases_view};
ghost use Rattle.dict_source.specs.Facts.{fact_view, fact_size, fact_within, conditional_view, conditional_size, conditional_within, option_size, option_within};
ghost use Rattle.dict_source.specs.Dictionary.{is_collection, number_from, too_many};
ghost use Rattle.dict_tree.specs.DictParsing.{listed_view, dictionary_with};

use crate::enums_json::EnumSource;
use dict_source::{Case, Conditional, Expr, FactSource, TypeText};

const MOST_FACTS: usize = 2_000;

const MOST_NODES: u32 = 40_000;

const MOST_COLLECTIONS: u32 = 32;

const MOST_ENUMS: usize = 200;

const MOST_OPTIONS: usize = 100;

const MOST_LIMITS: usize = 8;

const DEEPEST: u32 = 48;

// ---- nodes: what is left of a number after the nodes of a part, or None where they are more

#[tactic(auto, using(dict_source::proofs::Views::views))]
#[cycle(spend)]
fn spend(expr: &Expr, left: u32) -> Option<u32>
    ensures { MatchOption result (left < size (view expr.now)) (λ rest. rest + size (view expr.now) ≡ left) }
{
    if left == 0 {
        return None;
    }
    match expr {
        Expr::Const(_) => Some(left - 1),
        Expr::Read(_, _) => Some(left - 1),
        Expr::Switch(cases) => spend_cases(cases, left - 1),
        Expr::Many(_, operands) => spend_all(operands, left - 1),
        Expr::One(_, operand) => spend(operand, left - 1),
        Expr::Two(_, first, second) => spend(second, spend(first, left - 1)?),
        Expr::Pick(_, _, condition) => spend(condition, left - 1),
    }
}

#[cycle(spend)]
fn spend_all(exprs: &[Expr], left: u32) -> Option<u32>
    ensures { MatchOption result (left < size_of_trees (trees_view exprs.now))
        (λ rest. rest + size_of_trees (trees_view exprs.now) ≡ left) }
{
    let mut rest = left;
    for expr in exprs {
        rest = spend(expr, rest)?;
    }
    Some(rest)
}

#[cycle(spend)]
fn spend_cases(cases: &[Case], left: u32) -> Option<u32>
    ensures { MatchOption result (left < size_of_cases (cases_view cases.now))
        (λ rest. rest + size_of_cases (cases_view cases.now) ≡ left) }
{
    let mut rest = left;
    for case in cases {
        rest = spend(&case.outcome, spend(&case.test, rest)?)?;
    }
    Some(rest)
}

fn spend_option(expr: &Option<Expr>, left: u32) -> Option<u32>
    ensures { MatchOption result (left < option_size (option_map view expr.now))
        (λ rest. rest + option_size (option_map view expr.now) ≡ left) }
{
    match expr {
        None => Some(left),
        Some(expr) => spend(expr, left),
    }
}

fn spend_conditional(conditional: &Option<Conditional>, left: u32) -> Option<u32>
    ensures { MatchOption result (left < conditional_size (option_map conditional_view conditional.now))
        (λ rest. rest + conditional_size (option_map conditional_view conditional.now) ≡ left) }
{
    match conditional {
        None => Some(left),
        Some(pair) => spend(&pair.value, spend(&pair.test, left)?),
    }
}

fn spend_fact(fact: &FactSource, left: u32) -> Option<u32>
    ensures { MatchOption result (left < fact_size (fact_view fact.now)) (λ rest. rest + fact_size (fact_view fact.now)
        ≡ left) }
{
    let rest = spend_option(&fact.main, left)?;
    let rest = spend_conditional(&fact.conditional, rest)?;
    spend_option(&fact.placeholder, rest)
}

fn has_many_nodes(facts: &[FactSource]) -> bool
    ensures { result ≡ nat_lt 40000 (sum_by fact_size (map fact_view facts.now)) }
{
    let mut left = MOST_NODES;
    for fact in facts {
        match spend_fact(fact, left) {
            None => return true,
            Some(rest) => left = rest,
        }
    }
    false
}

// ---- depth

#[tactic(auto, using(dict_source::proofs::Views::views))]
#[cycle(within)]
fn is_within(expr: &Expr, most: u32) -> bool
    ensures { IsTrue result ↔ (depth_of (view expr.now) ≤ most) }
{
    if most == 0 {
        return false;
    }
    match expr {
        Expr::Const(_) => true,
        Expr::Read(_, _) => true,
        Expr::Switch(cases) => are_cases_within(cases, most - 1),
        Expr::Many(_, operands) => are_within(operands, most - 1),
        Expr::One(_, operand) => is_within(operand, most - 1),
        Expr::Two(_, first, second) => is_within(first, most - 1) && is_within(second, most - 1),
        Expr::Pick(_, _, condition) => is_within(condition, most - 1),
    }
}

#[cycle(within)]
fn are_within(exprs: &[Expr], most: u32) -> bool
    ensures { IsTrue result ↔ (depth_of_trees (trees_view exprs.now) ≤ most) }
{
    for expr in exprs {
        if !is_within(expr, most) {
            return false;
        }
    }
    true
}

#[cycle(within)]
fn are_cases_within(cases: &[Case], most: u32) -> bool
    ensures { IsTrue result ↔ (depth_of_cases (cases_view cases.now) ≤ most) }
{
    for case in cases {
        if !is_within(&case.test, most) {
            return false;
        }
        if !is_within(&case.outcome, most) {
            return false;
        }
    }
    true
}

fn is_option_within(expr: &Option<Expr>) -> bool
    ensures { result ≡ option_within 48 (option_map view expr.now) }
{
    match expr {
        None => true,
        Some(expr) => is_within(expr, DEEPEST),
    }
}

fn is_conditional_within(conditional: &Option<Conditional>) -> bool
    ensures { result ≡ conditional_within 48 (option_map conditional_view conditional.now) }
{
    match conditional {
        None => true,
        Some(pair) => is_within(&pair.test, DEEPEST) && is_within(&pair.value, DEEPEST),
    }
}

fn is_fact_within(fact: &FactSource) -> bool
    ensures { result ≡ fact_within 48 (fact_view fact.now) }
{
    is_option_within(&fact.main)
        && is_conditional_within(&fact.conditional)
        && is_option_within(&fact.placeholder)
}

/// The first fact with an expression deeper than 48.
pub fn first_deep(facts: &[FactSource]) -> Option<u32>
    requires { length facts.now ≤ 2000 }
    ensures { result ≡ number_from (λ f. not (fact_within 48 f)) 1 (map fact_view facts.now) }
{
    let mut number = 1u32;
    for fact in facts {
        if !is_fact_within(fact) {
            return Some(number);
        }
        number += 1;
    }
    None
}

// ---- numbers of the rest

fn is_list(fact: &FactSource) -> bool
    ensures { result ≡ is_collection (fact_view fact.now).stated }
{
    match &fact.stated {
        TypeText::WritableList => true,
        TypeText::Scalar(_) => false,
        TypeText::EnumOf(_) => false,
        TypeText::ListOf(_) => false,
        TypeText::ItemOf(_) => false,
    }
}

fn next_count(so_far: u32, counts: bool) -> u32
    requires { so_far < 4294967295 }
    ensures { result ≡ so_far + (if counts then 1 else 0) }
{
    if counts {
        return so_far + 1;
    }
    so_far
}

fn has_many_lists(facts: &[FactSource]) -> bool
    requires { length facts.now ≤ 2000 }
    ensures { result ≡ nat_lt 32 (count_by (λ f. is_collection f.stated) (map fact_view facts.now)) }
{
    let mut count = 0u32;
    for fact in facts {
        count = next_count(count, is_list(fact));
    }
    count > MOST_COLLECTIONS
}

fn has_many_options(enums: &[EnumSource]) -> bool
    ensures { result ≡ list_any (λ e. nat_lt 100 (length e.options)) (map listed_view enums.now) }
{
    for list in enums {
        if list.options.len() > MOST_OPTIONS {
            return true;
        }
    }
    false
}

fn has_many_limits(facts: &[FactSource]) -> bool
    ensures { result ≡ list_any (λ f. nat_lt 8 (length f.limits)) (map fact_view facts.now) }
{
    for fact in facts {
        if fact.limits.len() > MOST_LIMITS {
            return true;
        }
    }
    false
}

/// The first of the limits of numbers that is passed: 1 facts, 2 nodes, 3 writable collections, 4 enums, 5 options, 6 limits.
pub fn first_passed(enums: &[EnumSource], facts: &[FactSource]) -> Option<u32>
    ensures { result ≡ too_many (dictionary_with (map listed_view enums.now) [] (map fact_view facts.now)) }
{
    if facts.len() > MOST_FACTS {
        return Some(1);
    }
    if has_many_nodes(facts) {
        return Some(2);
    }
    if has_many_lists(facts) {
        return Some(3);
    }
    if enums.len() > MOST_ENUMS {
        return Some(4);
    }
    if has_many_options(enums) {
        return Some(5);
    }
    if has_many_limits(facts) {
        return Some(6);
    }
    None
}
