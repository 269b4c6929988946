// Counts the nodes of expressions and facts.
ghost use Rattle.std.specs.Prelude.{◌≡◌, ◌+◌, ◌≤◌, map, option_map, sum_by};
ghost use Rattle.dict_source.specs.Tree.{size, size_of_cases, size_of_trees};
ghost use Rattle.dict_source.specs.View.{cases_view, trees_view, view};
ghost use Rattle.dict_source.specs.Facts.{conditional_size, conditional_view, fact_size, fact_view, option_size};

use dict_source::{Case, Conditional, Expr, FactSource};

#[cycle(sizes)]
#[tactic(auto, using(dict_source::proofs::Views::views))]
fn with_expr(so_far: u32, expr: &Expr) -> u32
    requires { so_far + size (view expr.now) ≤ 40000 }
    ensures { result ≡ so_far + size (view expr.now) }
{
    let next = so_far + 1;
    match expr {
        Expr::Const(_) => next,
        Expr::Read(_, _) => next,
        Expr::Switch(cases) => with_cases(next, cases.as_slice()),
        Expr::Many(_, operands) => with_all(next, operands.as_slice()),
        Expr::One(_, operand) => with_expr(next, operand),
        Expr::Two(_, left, right) => with_expr(with_expr(next, left), right),
        Expr::Pick(_, _, test) => with_expr(next, test),
    }
}

#[cycle(sizes)]
fn with_all(so_far: u32, exprs: &[Expr]) -> u32
    requires { so_far + size_of_trees (trees_view exprs.now) ≤ 40000 }
    ensures { result ≡ so_far + size_of_trees (trees_view exprs.now) }
{
    let mut count = so_far;
    for expr in exprs {
        count = with_expr(count, expr);
    }
    count
}

#[cycle(sizes)]
fn with_cases(so_far: u32, cases: &[Case]) -> u32
    requires { so_far + size_of_cases (cases_view cases.now) ≤ 40000 }
    ensures { result ≡ so_far + size_of_cases (cases_view cases.now) }
{
    let mut count = so_far;
    for case in cases {
        count = with_expr(with_expr(count, &case.test), &case.outcome);
    }
    count
}

fn with_option(so_far: u32, expr: &Option<Expr>) -> u32
    requires { so_far + option_size (option_map view expr.now) ≤ 40000 }
    ensures { result ≡ so_far + option_size (option_map view expr.now) }
{
    match expr {
        None => so_far,
        Some(expr) => with_expr(so_far, expr),
    }
}

fn with_conditional(so_far: u32, conditional: &Option<Conditional>) -> u32
    requires { so_far + conditional_size (option_map conditional_view conditional.now) ≤ 40000 }
    ensures { result ≡ so_far + conditional_size (option_map conditional_view conditional.now) }
{
    match conditional {
        None => so_far,
        Some(pair) => with_expr(with_expr(so_far, &pair.test), &pair.value),
    }
}

fn with_fact(so_far: u32, fact: &FactSource) -> u32
    requires { so_far + fact_size (fact_view fact.now) ≤ 40000 }
    ensures { result ≡ so_far + fact_size (fact_view fact.now) }
{
    let count = with_option(so_far, &fact.main);
    let count = with_conditional(count, &fact.conditional);
    with_option(count, &fact.placeholder)
}

/// The nodes of facts, of which there are at most 40,000.
pub fn count_nodes(facts: &[FactSource]) -> u32
    requires { sum_by fact_size (map fact_view facts.now) ≤ 40000 }
    ensures { result ≡ sum_by fact_size (map fact_view facts.now) }
{
    let mut count = 0;
    for fact in facts {
        count = with_fact(count, fact);
    }
    count
}
