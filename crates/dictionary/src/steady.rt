// Which facts are steady.
ghost use Rattle.std.specs.Prelude.{◌≡◌, ◌-◌, ◌<◌, ◌≤◌, ℕ, List, length, slice_index, slice_set, option_map, IfOk};
ghost use Rattle.dict_source.specs.Dictionary.{dictionary_view};
ghost use Rattle.dict_source.specs.Facts.{conditional_view, fact_view};
ghost use Rattle.dict_source.specs.Mentions.{condition_base};
ghost use Rattle.dict_source.specs.Finding.{IsNumber, fact_at};
ghost use Rattle.dict_source.specs.View.{cases_view, trees_view, use_view, view};
ghost use Rattle.dict_order.specs.MentionGraph.{mention_graph};
ghost use Rattle.dict_order.specs.Ranks.{AreRanks};
ghost use Rattle.evaluation.specs.Order.{is_value_read};
ghost use Rattle.dictionary.specs.ByRank.{AreByRank};
ghost use Rattle.dictionary.specs.SteadyDependencies.{TellsSteady, known_at, steady_body, steady_cases, steady_conditional, steady_option, steady_source, steady_target, steady_trees, steady_use};

use dict_source::{Case, Conditional, DictSource, Expr, FactSource, PathUse, ReadOp};
use fact_paths::UsePath;
use fact_values::NoMemory;
use std::alloc::Global;

// ---- uses

fn is_known(known: &[bool], fact: u32) -> bool
    ensures { result ≡ known_at known.now fact }
{
    if fact == 0 {
        return false;
    }
    known.get(fact as usize - 1).copied().unwrap_or(false)
}

fn is_target_steady(known: &[bool], target: Option<u32>) -> bool
    ensures { result ≡ steady_target (known_at known.now) target }
{
    match target {
        None => true,
        Some(fact) => is_known(known, fact),
    }
}

fn is_path_steady(source: &DictSource, known: &[bool], fact: u32, base: u32, path: &UsePath) -> bool
    ensures { result ≡ steady_use (dictionary_view source.now) (known_at known.now) fact base (Some path.now) }
{
    let targets = source.targets(fact, base, path);
    is_target_steady(known, targets.first) && is_target_steady(known, targets.second)
}

fn is_use_steady(source: &DictSource, known: &[bool], fact: u32, base: u32, used: &PathUse) -> bool
    ensures { result ≡ steady_use (dictionary_view source.now) (known_at known.now) fact base (use_view used.now).path }
{
    match used {
        PathUse::Spelled(path) => is_path_steady(source, known, fact, base, path),
        PathUse::Misspelled(_) => true,
    }
}

fn base_under(source: &DictSource, fact: u32, base: u32, used: &PathUse) -> u32
    ensures { result ≡ condition_base (dictionary_view source.now) fact base (use_view used.now).path }
{
    match used {
        PathUse::Spelled(path) => source.condition_base(fact, base, path),
        PathUse::Misspelled(_) => 0,
    }
}

// ---- expressions

fn reads_value(op: ReadOp) -> bool
    ensures { result ≡ is_value_read op }
{
    match op {
        ReadOp::Dependency => true,
        ReadOp::IsComplete => false,
        ReadOp::CollectionSize => true,
        ReadOp::CollectionSum => true,
        ReadOp::Count => true,
    }
}

#[cycle(steady)]
#[tactic(auto, using(dict_source::proofs::Views::views))]
fn is_steady(source: &DictSource, known: &[bool], fact: u32, base: u32, expr: &Expr) -> bool
    ensures { result ≡ steady_source (dictionary_view source.now) (known_at known.now) fact base (view expr.now) }
{
    match expr {
        Expr::Const(_) => true,
        Expr::Read(op, used) => reads_value(*op) && is_use_steady(source, known, fact, base, used),
        Expr::Switch(cases) => are_cases_steady(source, known, fact, base, cases.as_slice()),
        Expr::Many(_, operands) => are_steady(source, known, fact, base, operands.as_slice()),
        Expr::One(_, operand) => is_steady(source, known, fact, base, operand),
        Expr::Two(_, left, right) => {
            is_steady(source, known, fact, base, left)
                && is_steady(source, known, fact, base, right)
        }
        Expr::Pick(_, used, test) => {
            let inner = base_under(source, fact, base, used);
            is_use_steady(source, known, fact, base, used)
                && is_steady(source, known, fact, inner, test)
        }
    }
}

#[cycle(steady)]
fn are_steady(source: &DictSource, known: &[bool], fact: u32, base: u32, exprs: &[Expr]) -> bool
    ensures { result ≡ steady_trees (dictionary_view source.now) (known_at known.now) fact base (trees_view exprs.now) }
{
    for expr in exprs {
        if !is_steady(source, known, fact, base, expr) {
            return false;
        }
    }
    true
}

#[cycle(steady)]
fn are_cases_steady(
    source: &DictSource,
    known: &[bool],
    fact: u32,
    base: u32,
    cases: &[Case],
) -> bool
    ensures { result ≡ steady_cases (dictionary_view source.now) (known_at known.now) fact base (cases_view cases.now) }
{
    for case in cases {
        if !is_steady(source, known, fact, base, &case.test) {
            return false;
        }
        if !is_steady(source, known, fact, base, &case.outcome) {
            return false;
        }
    }
    true
}

// ---- bodies

fn is_option_steady(source: &DictSource, known: &[bool], fact: u32, expr: &Option<Expr>) -> bool
    ensures { result ≡ steady_option (dictionary_view source.now) (known_at known.now) fact (option_map view expr.now) }
{
    match expr {
        None => true,
        Some(expr) => is_steady(source, known, fact, 0, expr),
    }
}

fn is_conditional_steady(
    source: &DictSource,
    known: &[bool],
    fact: u32,
    conditional: &Option<Conditional>,
) -> bool
    ensures { result ≡ steady_conditional (dictionary_view source.now) (known_at known.now) fact
        (option_map conditional_view conditional.now) }
{
    match conditional {
        None => true,
        Some(pair) => {
            is_steady(source, known, fact, 0, &pair.test)
                && is_steady(source, known, fact, 0, &pair.value)
        }
    }
}

fn is_body_steady(source: &DictSource, known: &[bool], number: u32, fact: &FactSource) -> bool
    ensures { result ≡ steady_body (dictionary_view source.now) (known_at known.now) number
        (Some (fact_view fact.now)) }
{
    is_option_steady(source, known, number, &fact.main)
        && is_conditional_steady(source, known, number, &fact.conditional)
}

// Whether the fact is steady, where those that its body mentions are known.
fn is_fact_steady(source: &DictSource, known: &[bool], number: u32) -> bool
    ensures { result ≡ steady_body (dictionary_view source.now) (known_at known.now) number
        (fact_at (dictionary_view source.now).facts number) }
{
    match source.fact(number) {
        None => true,
        Some(fact) => is_body_steady(source, known, number, fact),
    }
}

// Makes the fact known, where those that its body mentions are.
fn settle(source: &DictSource, number: u32, known: &mut Vec<bool>)
    requires low { 1 ≤ number }
    requires high { number ≤ length known.old.items }
    ensures { known.new.items ≡ slice_set known.old.items (number - 1) (steady_body (dictionary_view source.now)
        (known_at known.old.items) number (fact_at (dictionary_view source.now).facts number)) }
{
    let is = is_fact_steady(source, known.as_slice(), number);
    known[number as usize - 1] = is;
}

/// Whether each fact is steady, from the facts by rising rank.
pub fn steady_facts(
    alloc: Global,
    source: &DictSource,
    by_rank: &[u32],
) -> Result<Vec<bool>, NoMemory>
    requires { (place : ℕ) → place < length by_rank.now → IsNumber (dictionary_view source.now).facts
        (slice_index by_rank.now place) }
    ensures { (ranks : List ℕ) → AreRanks (mention_graph (dictionary_view source.now)) ranks
        → AreByRank ranks by_rank.now → IfOk result (λ known. TellsSteady (dictionary_view source.now) ranks
        known.items) }
{
    let mut known = vec![in alloc; false; source.facts().len()]?;
    for number in by_rank {
        settle(source, *number, &mut known);
    }
    Ok(known)
}
