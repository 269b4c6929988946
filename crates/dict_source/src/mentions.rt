// Which facts an expression reads, and whether of the same member alone.
ghost use Rattle.std.specs.Prelude.{◌≡◌, ◌++◌, option_map, IfOk, OnOk};
ghost use Rattle.dict_source.specs.Dictionary.{dictionary_view};
ghost use Rattle.dict_source.specs.Facts.{conditional_view, fact_view};
ghost use Rattle.std.specs.List.{All};
ghost use Rattle.dict_source.specs.Finding.{IsNumber, fact_at};
ghost use Rattle.dict_source.specs.Mentions.{case_mentions, condition_base, conditional_mentions, fact_mentions, found_mentions, is_same, mention_of, mentions, option_mentions, tree_mentions, use_mentions};
ghost use Rattle.dict_source.specs.View.{cases_view, trees_view, use_view, view};

use crate::dict_source::DictSource;
use crate::expr::{Case, Expr};
use crate::fact_source::{Conditional, FactSource};
use crate::path_use::PathUse;
use fact_paths::UsePath;
use std::alloc::{AllocError, Global};

/// A fact that another one reads, by its number.
#[derive(Clone, Copy, PartialEq, Eq)]
pub struct Mention {
    pub fact: u32,
    /// Whether it is read of the same member alone, and not of any.
    pub same: bool,
}

fn is_same_member(path: &UsePath) -> bool
    ensures { result ≡ is_same path.now }
{
    match path {
        UsePath::Global(_) => false,
        UsePath::Sibling(_) => true,
        UsePath::Inner(_) => false,
        UsePath::Each(..) => false,
        UsePath::Through(..) => false,
        UsePath::SiblingThrough(..) => true,
    }
}

fn note_target(target: Option<u32>, same: bool, out: &mut Vec<Mention>) -> Result<(), AllocError>
    ensures { OnOk result (out.new.items ≡ out.old.items ++ mention_of same target) }
{
    match target {
        None => Ok(()),
        Some(fact) => {
            out.push(Mention { fact, same })?;
            Ok(())
        }
    }
}

fn note_path(
    source: &DictSource,
    fact: u32,
    base: u32,
    path: &UsePath,
    out: &mut Vec<Mention>,
) -> Result<(), AllocError>
    ensures { OnOk result (out.new.items ≡ out.old.items ++ use_mentions (dictionary_view source.now) fact base
        (Some path.now)) }
{
    let targets = source.targets(fact, base, path);
    note_target(targets.first, is_same_member(path), out)?;
    note_target(targets.second, false, out)
}

fn note_use(
    source: &DictSource,
    fact: u32,
    base: u32,
    used: &PathUse,
    out: &mut Vec<Mention>,
) -> Result<(), AllocError>
    ensures { OnOk result (out.new.items ≡ out.old.items ++ use_mentions (dictionary_view source.now) fact base
        (use_view used.now).path) }
{
    match used {
        PathUse::Spelled(path) => note_path(source, fact, base, path, out),
        PathUse::Misspelled(_) => Ok(()),
    }
}

fn base_under(source: &DictSource, fact: u32, base: u32, used: &PathUse) -> u32
    ensures { result ≡ condition_base (dictionary_view source.now) fact base (use_view used.now).path }
{
    match used {
        PathUse::Spelled(path) => source.condition_base(fact, base, path),
        PathUse::Misspelled(_) => 0,
    }
}

#[cycle(expr)]
#[tactic(auto, using(crate::proofs::Views::views))]
fn note_expr(
    source: &DictSource,
    fact: u32,
    base: u32,
    expr: &Expr,
    out: &mut Vec<Mention>,
) -> Result<(), AllocError>
    ensures { OnOk result (out.new.items ≡ out.old.items ++ mentions (dictionary_view source.now) fact base
        (view expr.now)) }
{
    match expr {
        Expr::Const(_) => Ok(()),
        Expr::Read(_, used) => note_use(source, fact, base, used, out),
        Expr::Switch(cases) => note_cases(source, fact, base, cases.as_slice(), out),
        Expr::Many(_, operands) => note_all(source, fact, base, operands.as_slice(), out),
        Expr::One(_, operand) => note_expr(source, fact, base, operand, out),
        Expr::Two(_, left, right) => {
            note_expr(source, fact, base, left, out)?;
            note_expr(source, fact, base, right, out)
        }
        Expr::Pick(_, used, test) => {
            note_use(source, fact, base, used, out)?;
            let inner = base_under(source, fact, base, used);
            note_expr(source, fact, inner, test, out)
        }
    }
}

#[cycle(expr)]
fn note_all(
    source: &DictSource,
    fact: u32,
    base: u32,
    operands: &[Expr],
    out: &mut Vec<Mention>,
) -> Result<(), AllocError>
    ensures { OnOk result (out.new.items ≡ out.old.items ++ tree_mentions (dictionary_view source.now) fact base
        (trees_view operands.now)) }
{
    for operand in operands {
        note_expr(source, fact, base, operand, out)?;
    }
    Ok(())
}

#[cycle(expr)]
fn note_cases(
    source: &DictSource,
    fact: u32,
    base: u32,
    cases: &[Case],
    out: &mut Vec<Mention>,
) -> Result<(), AllocError>
    ensures { OnOk result (out.new.items ≡ out.old.items ++ case_mentions (dictionary_view source.now) fact base
        (cases_view cases.now)) }
{
    for case in cases {
        note_expr(source, fact, base, &case.test, out)?;
        note_expr(source, fact, base, &case.outcome, out)?;
    }
    Ok(())
}

fn note_option(
    source: &DictSource,
    fact: u32,
    expr: &Option<Expr>,
    out: &mut Vec<Mention>,
) -> Result<(), AllocError>
    ensures { OnOk result (out.new.items ≡ out.old.items ++ option_mentions (dictionary_view source.now) fact
        (option_map view expr.now)) }
{
    match expr {
        None => Ok(()),
        Some(expr) => note_expr(source, fact, 0, expr, out),
    }
}

fn note_conditional(
    source: &DictSource,
    fact: u32,
    conditional: &Option<Conditional>,
    out: &mut Vec<Mention>,
) -> Result<(), AllocError>
    ensures { OnOk result (out.new.items ≡ out.old.items ++ conditional_mentions (dictionary_view source.now) fact
        (option_map conditional_view conditional.now)) }
{
    match conditional {
        None => Ok(()),
        Some(conditional) => {
            note_expr(source, fact, 0, &conditional.test, out)?;
            note_expr(source, fact, 0, &conditional.value, out)
        }
    }
}

fn note_fact(
    source: &DictSource,
    number: u32,
    fact: &FactSource,
    out: &mut Vec<Mention>,
) -> Result<(), AllocError>
    ensures { OnOk result (out.new.items ≡ out.old.items ++ fact_mentions (dictionary_view source.now) number
        (fact_view fact.now)) }
{
    note_option(source, number, &fact.main, out)?;
    note_conditional(source, number, &fact.conditional, out)?;
    note_option(source, number, &fact.placeholder, out)
}

fn note_number(source: &DictSource, number: u32, out: &mut Vec<Mention>) -> Result<(), AllocError>
    ensures { OnOk result (out.new.items ≡ out.old.items ++ found_mentions (dictionary_view source.now) number
        (fact_at (dictionary_view source.now).facts number)) }
{
    match source.fact(number) {
        None => Ok(()),
        Some(fact) => note_fact(source, number, fact, out),
    }
}

impl DictSource {
    /// The collection over which the condition of a filter or find with this path stands, by its fact's number;
    /// 0 where none is known.
    pub fn condition_base(&self, fact: u32, base: u32, path: &UsePath) -> u32
        ensures { result ≡ condition_base (dictionary_view self.now) fact base (Some path.now) }
    {
        self.base_of_list(self.first_target(fact, base, path))
            .unwrap_or(0)
    }

    /// What the fact with this number mentions in its expressions, in preorder: nothing where there is no such fact.
    pub fn mentions(&self, alloc: Global, fact: u32) -> Result<Vec<Mention>, AllocError>
        ensures value { IfOk result (λ list. list.items ≡ found_mentions (dictionary_view self.now) fact
            (fact_at (dictionary_view self.now).facts fact)) }
        ensures within { IfOk result (λ list. All (λ (mention : Mention). IsNumber (dictionary_view self.now).facts
            mention.fact) list.items) }
    {
        let mut out = Vec::new(alloc);
        note_number(self, fact, &mut out)?;
        Ok(out)
    }
}
