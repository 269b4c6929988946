// Which operators are of the law profile, and whether a version has those of a fact.
ghost use Rattle.std.specs.Prelude.{◌≡◌, map, option_map};
ghost use Rattle.std.specs.List.{list_any};
ghost use Rattle.dict_source.specs.Facts.{conditional_view, fact_view};
ghost use Rattle.fact_json.specs.Profile.{case_uses_law, conditional_uses_law, fact_uses_law, has_operators, is_one_of_law, is_two_of_law, one_uses_law, option_uses_law, uses_law};
ghost use Rattle.dict_source.specs.View.{cases_view, trees_view, view};

use crate::version::Version;
use dict_source::{Case, Conditional, Expr, FactSource, OneOp, TwoOp};

fn is_one_of_law(op: &OneOp) -> bool
    ensures { result ≡ is_one_of_law op.now }
{
    match op {
        OneOp::MonthOf | OneOp::DayOf | OneOp::Lookup(_) => true,
        OneOp::Not | OneOp::Round | OneOp::YearOf => false,
    }
}

fn is_two_of_law(op: TwoOp) -> bool
    ensures { result ≡ is_two_of_law op }
{
    match op {
        TwoOp::AddMonths
        | TwoOp::AddYears
        | TwoOp::DaysBetween
        | TwoOp::AgeOn
        | TwoOp::RoundUp
        | TwoOp::RoundDown
        | TwoOp::RoundNearest => true,
        TwoOp::Multiply
        | TwoOp::Divide
        | TwoOp::AddDays
        | TwoOp::Equal
        | TwoOp::NotEqual
        | TwoOp::GreaterThan
        | TwoOp::LessThan
        | TwoOp::GreaterThanOrEqual
        | TwoOp::LessThanOrEqual => false,
    }
}

#[cycle(law)]
#[tactic(auto, using(dict_source::proofs::Views::views))]
fn uses_law(expr: &Expr) -> bool
    ensures { result ≡ uses_law (view expr.now) }
{
    match expr {
        Expr::Const(_) => false,
        Expr::Read(_, _) => false,
        Expr::Switch(cases) => case_uses_law(cases),
        Expr::Many(_, operands) => one_uses_law(operands),
        Expr::One(op, operand) => is_one_of_law(op) || uses_law(operand),
        Expr::Two(op, first, second) => is_two_of_law(*op) || uses_law(first) || uses_law(second),
        Expr::Pick(_, _, condition) => uses_law(condition),
    }
}

#[cycle(law)]
fn one_uses_law(exprs: &[Expr]) -> bool
    ensures { result ≡ one_uses_law (trees_view exprs.now) }
{
    for expr in exprs {
        if uses_law(expr) {
            return true;
        }
    }
    false
}

#[cycle(law)]
fn case_uses_law(cases: &[Case]) -> bool
    ensures { result ≡ case_uses_law (cases_view cases.now) }
{
    for case in cases {
        if uses_law(&case.test) {
            return true;
        }
        if uses_law(&case.outcome) {
            return true;
        }
    }
    false
}

fn option_uses_law(expr: &Option<Expr>) -> bool
    ensures { result ≡ option_uses_law (option_map view expr.now) }
{
    match expr {
        None => false,
        Some(expr) => uses_law(expr),
    }
}

fn conditional_uses_law(conditional: &Option<Conditional>) -> bool
    ensures { result ≡ conditional_uses_law (option_map conditional_view conditional.now) }
{
    match conditional {
        None => false,
        Some(pair) => uses_law(&pair.test) || uses_law(&pair.value),
    }
}

fn fact_uses_law(fact: &FactSource) -> bool
    ensures { result ≡ fact_uses_law (fact_view fact.now) }
{
    option_uses_law(&fact.main)
        || conditional_uses_law(&fact.conditional)
        || option_uses_law(&fact.placeholder)
}

/// Whether the version has each operator of the fact.
pub fn has_operators(version: Version, fact: &FactSource) -> bool
    ensures { result ≡ has_operators version (fact_view fact.now) }
{
    match version {
        Version::First => !fact_uses_law(fact),
        Version::Second => !fact_uses_law(fact),
        Version::Law => true,
    }
}

/// Whether a fact has an operator of the law profile.
pub fn some_uses_law(facts: &[FactSource]) -> bool
    ensures { result ≡ list_any fact_uses_law (map fact_view facts.now) }
{
    for fact in facts {
        if fact_uses_law(fact) {
            return true;
        }
    }
    false
}
