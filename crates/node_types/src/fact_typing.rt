// The types of a fact's expressions beside the type that it states.
ghost use Rattle.std.specs.Prelude.{◌≡◌, ◌+◌, ◌<◌, ◌≤◌, ◌^◌, ⊤, option_map, OnOk};
ghost use Rattle.dict_source.specs.Dictionary.{dictionary_view};
ghost use Rattle.dict_source.specs.Facts.{conditional_size, conditional_view, fact_size, fact_view, option_size};
ghost use Rattle.dict_source.specs.Tree.{size};
ghost use Rattle.dict_source.specs.View.{view};
ghost use Rattle.node_types.specs.FactTyping.{conditional_as, expr_as, fact_typed, nodes_as, option_as, root_as, types_in};
ghost use Rattle.node_types.specs.Inferring.{Infers};

use crate::inference::infer;
use crate::node_fault::NodeFault;
use crate::operand_types::is_same;
use crate::stated_types::stated_type;
use dict_source::{Conditional, DictSource, Expr, FactSource};
use fact_values::FactType;
use std::alloc::Global;

fn expect_root(number: u32, want: FactType, found: FactType) -> Result<(), NodeFault>
    ensures { Infers {Y = ⊤} (λ u. u) result (root_as number want found) }
{
    if is_same(found, want) {
        return Ok(());
    }
    Err(NodeFault::IllTyped(number))
}

// Whether the expression has the type that is wanted.
fn expect_expr(
    alloc: Global,
    source: &DictSource,
    fact: u32,
    want: FactType,
    expr: &Expr,
    next: &mut u32,
) -> Result<(), NodeFault>
    requires { next.old + size (view expr.now) < 2 ^ 32 }
    ensures found { Infers {Y = ⊤} (λ u. u) result (expr_as (types_in (dictionary_view source.now) fact) next.old want
        (view expr.now)) }
    ensures count { OnOk result (next.new ≡ next.old + size (view expr.now)) }
{
    let number = *next;
    let found = infer(alloc, source, fact, 0, expr, next)?;
    expect_root(number, want, found)
}

fn expect_option(
    alloc: Global,
    source: &DictSource,
    fact: u32,
    want: FactType,
    expr: &Option<Expr>,
    next: &mut u32,
) -> Result<(), NodeFault>
    requires { next.old + option_size (option_map view expr.now) < 2 ^ 32 }
    ensures found { Infers {Y = ⊤} (λ u. u) result (option_as (types_in (dictionary_view source.now) fact) next.old want
        (option_map view expr.now)) }
    ensures count { OnOk result (next.new ≡ next.old + option_size (option_map view expr.now)) }
{
    match expr {
        None => Ok(()),
        Some(expr) => expect_expr(alloc, source, fact, want, expr, next),
    }
}

fn expect_conditional(
    alloc: Global,
    source: &DictSource,
    fact: u32,
    want: FactType,
    conditional: &Option<Conditional>,
    next: &mut u32,
) -> Result<(), NodeFault>
    requires { next.old + conditional_size (option_map conditional_view conditional.now) < 2 ^ 32 }
    ensures found { Infers {Y = ⊤} (λ u. u) result (conditional_as (types_in (dictionary_view source.now) fact) next.old
        want (option_map conditional_view conditional.now)) }
    ensures count { OnOk result (next.new ≡ next.old + conditional_size (option_map conditional_view conditional.now)) }
{
    match conditional {
        None => Ok(()),
        Some(pair) => {
            expect_expr(alloc, source, fact, FactType::Boolean, &pair.test, next)?;
            expect_expr(alloc, source, fact, want, &pair.value, next)
        }
    }
}

// Whether the fact's four expressions have the types that are wanted.
fn expect_nodes(
    alloc: Global,
    source: &DictSource,
    number: u32,
    want: FactType,
    fact: &FactSource,
) -> Result<(), NodeFault>
    requires { fact_size (fact_view fact.now) ≤ 40000 }
    ensures { Infers {Y = ⊤} (λ u. u) result (nodes_as (types_in (dictionary_view source.now) number) want
        (fact_view fact.now)) }
{
    let mut next = 1u32;
    expect_option(alloc, source, number, want, &fact.main, &mut next)?;
    expect_conditional(alloc, source, number, want, &fact.conditional, &mut next)?;
    expect_option(alloc, source, number, want, &fact.placeholder, &mut next)
}

/// The fact's type, where all its nodes have types.
pub fn type_fact(
    alloc: Global,
    source: &DictSource,
    number: u32,
    fact: &FactSource,
) -> Result<FactType, NodeFault>
    requires { fact_size (fact_view fact.now) ≤ 40000 }
    ensures { Infers (λ t. t) result (fact_typed (dictionary_view source.now) number (fact_view fact.now)) }
{
    match stated_type(source, fact) {
        None => Err(NodeFault::IllTyped(0)),
        Some(want) => {
            expect_nodes(alloc, source, number, want, fact)?;
            Ok(want)
        }
    }
}
