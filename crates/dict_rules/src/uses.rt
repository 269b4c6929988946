// The rules that a use of a path may break, tested over all uses in a fact.
ghost use Rattle.std.specs.Prelude.{◌≡◌, option_map};
ghost use Rattle.dict_source.specs.Dictionary.{dictionary_view};
ghost use Rattle.dict_source.specs.Facts.{conditional_view, fact_view};
ghost use Rattle.dict_source.specs.View.{cases_view, trees_view, use_view, view};
ghost use Rattle.dict_rules.specs.Uses.{base_of, cases_have_use, condition_under, conditional_has_use, fact_has_use, goes_through_members as through_members, has_use, option_has_use, reads_collection as of_collection, reads_each as of_each, reads_fact as of_fact, some_have_use};
ghost use Rattle.dict_rules.specs.declared.use_op.UseOp.TheVariants as use_ops;
ghost use Rattle.dict_rules.specs.UseRules.{use_breaks};

use crate::bad_path::is_bad_use;
use crate::no_collection::use_lacks_list;
use crate::unknown_path::is_unknown_use;
use crate::use_op::UseOp;
use crate::wrong_place::is_misplaced;
use dict_source::{Case, Conditional, DictSource, Expr, FactSource, PathUse, ReadOp};

/// A rule that the use of a path may break.
#[derive(Clone, Copy, PartialEq, Eq)]
pub enum UseRule {
    BadPath,
    NoCollection,
    UnknownPath,
    WrongPlace,
}

// ---- operators

/// Whether it reads one fact.
pub fn reads_fact(use_op: UseOp) -> bool
    ensures { result ≡ of_fact use_op }
{
    match use_op {
        UseOp::Read(op) => op_reads_fact(op),
        UseOp::Pick(_) => false,
    }
}

fn op_reads_fact(op: ReadOp) -> bool
    ensures { result ≡ of_fact (use_ops.Read op) }
{
    match op {
        ReadOp::Dependency => true,
        ReadOp::IsComplete => true,
        ReadOp::CollectionSize => false,
        ReadOp::CollectionSum => false,
        ReadOp::Count => false,
    }
}

fn op_reads_each(op: ReadOp) -> bool
    ensures { result ≡ of_each (use_ops.Read op) }
{
    match op {
        ReadOp::Dependency => false,
        ReadOp::IsComplete => false,
        ReadOp::CollectionSize => false,
        ReadOp::CollectionSum => true,
        ReadOp::Count => true,
    }
}

/// Whether it reads a field of each member.
pub fn reads_each(use_op: UseOp) -> bool
    ensures { result ≡ of_each use_op }
{
    match use_op {
        UseOp::Read(op) => op_reads_each(op),
        UseOp::Pick(_) => false,
    }
}

/// Whether it goes through members.
pub fn goes_through_members(use_op: UseOp) -> bool
    ensures { result ≡ through_members use_op }
{
    match use_op {
        UseOp::Read(op) => op_reads_each(op),
        UseOp::Pick(_) => true,
    }
}

fn op_reads_collection(op: ReadOp) -> bool
    ensures { result ≡ of_collection (use_ops.Read op) }
{
    match op {
        ReadOp::Dependency => false,
        ReadOp::IsComplete => false,
        ReadOp::CollectionSize => true,
        ReadOp::CollectionSum => true,
        ReadOp::Count => true,
    }
}

/// Whether it reads a collection.
pub fn reads_collection(use_op: UseOp) -> bool
    ensures { result ≡ of_collection use_op }
{
    match use_op {
        UseOp::Read(op) => op_reads_collection(op),
        UseOp::Pick(_) => true,
    }
}

// ---- uses

/// The base of a condition: 0 outside of conditions, and where it isn't known.
pub fn base_under(condition: Option<u32>) -> u32
    ensures { result ≡ base_of condition }
{
    condition.unwrap_or(0)
}

fn condition_of_pick(
    source: &DictSource,
    fact: u32,
    condition: Option<u32>,
    used: &PathUse,
) -> Option<u32>
    ensures { result ≡ condition_under (dictionary_view source.now) fact condition (use_view used.now) }
{
    match used {
        PathUse::Spelled(path) => Some(source.condition_base(fact, base_under(condition), path)),
        PathUse::Misspelled(_) => Some(0),
    }
}

fn breaks(
    source: &DictSource,
    rule: UseRule,
    fact: u32,
    use_op: UseOp,
    condition: Option<u32>,
    used: &PathUse,
) -> bool
    ensures { result ≡ use_breaks (dictionary_view source.now) fact rule use_op condition (use_view used.now) }
{
    match rule {
        UseRule::BadPath => is_bad_use(used),
        UseRule::NoCollection => use_lacks_list(source, fact, use_op, condition, used),
        UseRule::UnknownPath => is_unknown_use(source, fact, use_op, condition, used),
        UseRule::WrongPlace => is_misplaced(source, fact, use_op, condition, used),
    }
}

#[cycle(uses)]
#[tactic(auto, using(dict_source::proofs::Views::views))]
fn expr_breaks(
    source: &DictSource,
    rule: UseRule,
    fact: u32,
    condition: Option<u32>,
    expr: &Expr,
) -> bool
    ensures { result ≡ has_use (use_breaks (dictionary_view source.now) fact rule) (dictionary_view source.now) fact
        condition (view expr.now) }
{
    match expr {
        Expr::Const(_) => false,
        Expr::Read(op, used) => breaks(source, rule, fact, UseOp::Read(*op), condition, used),
        Expr::Switch(cases) => cases_break(source, rule, fact, condition, cases.as_slice()),
        Expr::Many(_, operands) => some_break(source, rule, fact, condition, operands.as_slice()),
        Expr::One(_, operand) => expr_breaks(source, rule, fact, condition, operand),
        Expr::Two(_, left, right) => {
            if expr_breaks(source, rule, fact, condition, left) {
                return true;
            }
            expr_breaks(source, rule, fact, condition, right)
        }
        Expr::Pick(op, used, test) => {
            if breaks(source, rule, fact, UseOp::Pick(*op), condition, used) {
                return true;
            }
            let inner = condition_of_pick(source, fact, condition, used);
            expr_breaks(source, rule, fact, inner, test)
        }
    }
}

#[cycle(uses)]
fn some_break(
    source: &DictSource,
    rule: UseRule,
    fact: u32,
    condition: Option<u32>,
    operands: &[Expr],
) -> bool
    ensures { result ≡ some_have_use (use_breaks (dictionary_view source.now) fact rule) (dictionary_view source.now)
        fact condition (trees_view operands.now) }
{
    for operand in operands {
        if expr_breaks(source, rule, fact, condition, operand) {
            return true;
        }
    }
    false
}

#[cycle(uses)]
fn cases_break(
    source: &DictSource,
    rule: UseRule,
    fact: u32,
    condition: Option<u32>,
    cases: &[Case],
) -> bool
    ensures { result ≡ cases_have_use (use_breaks (dictionary_view source.now) fact rule) (dictionary_view source.now)
        fact condition (cases_view cases.now) }
{
    for case in cases {
        if expr_breaks(source, rule, fact, condition, &case.test) {
            return true;
        }
        if expr_breaks(source, rule, fact, condition, &case.outcome) {
            return true;
        }
    }
    false
}

fn option_breaks(source: &DictSource, rule: UseRule, fact: u32, expr: &Option<Expr>) -> bool
    ensures { result ≡ option_has_use (use_breaks (dictionary_view source.now) fact rule) (dictionary_view source.now)
        fact (option_map view expr.now) }
{
    match expr {
        None => false,
        Some(expr) => expr_breaks(source, rule, fact, None, expr),
    }
}

fn conditional_breaks(
    source: &DictSource,
    rule: UseRule,
    fact: u32,
    conditional: &Option<Conditional>,
) -> bool
    ensures { result ≡ conditional_has_use (use_breaks (dictionary_view source.now) fact rule)
        (dictionary_view source.now) fact (option_map conditional_view conditional.now) }
{
    match conditional {
        None => false,
        Some(pair) => {
            if expr_breaks(source, rule, fact, None, &pair.test) {
                return true;
            }
            expr_breaks(source, rule, fact, None, &pair.value)
        }
    }
}

/// Whether a use in one of the fact's expressions breaks the rule.
pub fn some_use_breaks(source: &DictSource, rule: UseRule, number: u32, fact: &FactSource) -> bool
    ensures { result ≡ fact_has_use (use_breaks (dictionary_view source.now) number rule) (dictionary_view source.now)
        number (fact_view fact.now) }
{
    if option_breaks(source, rule, number, &fact.main) {
        return true;
    }
    if conditional_breaks(source, rule, number, &fact.conditional) {
        return true;
    }
    option_breaks(source, rule, number, &fact.placeholder)
}
