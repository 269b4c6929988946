// Makes expressions of forms.
ghost use Rattle.std.specs.Prelude.{◌≡◌, IfOk, string_bytes};
ghost use Rattle.dict_source.specs.View.{use_of, box_view, case_view, cases_view, literal_of, trees_view, view};
ghost use Rattle.dict_source.specs.Tree.{pick, two};
ghost use Rattle.written_facts.specs.Figures.{figures_view};
ghost use Rattle.written_facts.specs.Forms.{fixed_view, form_view, forms_view, when_view, whens_view};

use crate::figure::{Figure, text_of};
use crate::form::{Fixed, Form, When};
use dict_source::{Case, Constant, Expr, PickOp, TwoOp, read_use};
use fact_json::op_of_name;
use fact_values::NoMemory;
use std::alloc::Global;

fn text(alloc: Global, text: &str) -> Result<String, NoMemory>
    ensures { IfOk result (λ copy. string_bytes copy ≡ text.now) }
{
    Ok(String::from_str(alloc, text)?)
}

fn constant(alloc: Global, figures: &[Figure<'_>], fixed: &Fixed<'_>) -> Result<Constant, NoMemory>
    ensures { IfOk result (λ c. literal_of c ≡ fixed_view (figures_view figures.now) fixed.now) }
{
    match fixed {
        Fixed::True => Ok(Constant::True),
        Fixed::False => Ok(Constant::False),
        Fixed::Int(number) => Ok(Constant::Int(text(alloc, number)?)),
        Fixed::Dollar(amount) => Ok(Constant::Dollar(text(alloc, amount)?)),
        Fixed::DollarOf(name) => Ok(Constant::Dollar(text(alloc, text_of(figures, name))?)),
        Fixed::Rational(fraction) => Ok(Constant::Rational(text(alloc, fraction)?)),
        Fixed::Day(day) => Ok(Constant::Day(text(alloc, day)?)),
        Fixed::DayOf(name) => Ok(Constant::Day(text(alloc, text_of(figures, name))?)),
        Fixed::Text(plain) => Ok(Constant::Text(text(alloc, plain)?)),
        Fixed::Choice(list, option) => {
            let list = text(alloc, list)?;
            let option = text(alloc, option)?;
            Ok(Constant::Choice(list, option))
        }
    }
}

#[tactic(auto, using(dict_source::proofs::Views::views))]
fn pick(alloc: Global, op: PickOp, path: &str, test: Box<Expr>) -> Result<Expr, NoMemory>
    ensures { IfOk result (λ e. view e ≡ pick op (use_of path.now) (box_view test)) }
{
    let path = read_use(alloc, path)?;
    Ok(Expr::Pick(op, path, test))
}

#[tactic(auto, using(dict_source::proofs::Views::views))]
fn two(op: TwoOp, left: Box<Expr>, right: Box<Expr>) -> Expr
    ensures { view result ≡ two op (box_view left) (box_view right) }
{
    Expr::Two(op, left, right)
}

fn case_of(test: Box<Expr>, outcome: Box<Expr>) -> Case
    ensures { case_view result ≡ (box_view test, box_view outcome) }
{
    Case {
        test: Box::into_inner(test),
        outcome: Box::into_inner(outcome),
    }
}

/// The expression that the form writes, with the figures of these names.
#[tactic(auto, using(crate::proofs::FormViews::both))]
#[cycle(build)]
pub fn build(alloc: Global, figures: &[Figure<'_>], form: &Form<'_>) -> Result<Expr, NoMemory>
    ensures { IfOk result (λ e. view e ≡ form_view (figures_view figures.now) form.now) }
{
    match form {
        Form::Const(fixed) => Ok(Expr::Const(constant(alloc, figures, fixed)?)),
        Form::Read(op, path) => Ok(Expr::Read(*op, read_use(alloc, path)?)),
        Form::Switch(cases) => Ok(Expr::Switch(build_cases(alloc, figures, cases)?)),
        Form::Many(op, operands) => Ok(Expr::Many(*op, build_all(alloc, figures, operands)?)),
        Form::One(name, operand) => Ok(Expr::One(
            op_of_name(*name),
            build_boxed(alloc, figures, operand)?,
        )),
        Form::Two(op, left, right) => {
            let left = build_boxed(alloc, figures, left)?;
            let right = build_boxed(alloc, figures, right)?;
            Ok(two(*op, left, right))
        }
        Form::Pick(op, path, test) => pick(alloc, *op, path, build_boxed(alloc, figures, test)?),
    }
}

// The expression in a place of its own.
#[cycle(build)]
fn build_boxed(
    alloc: Global,
    figures: &[Figure<'_>],
    form: &Form<'_>,
) -> Result<Box<Expr>, NoMemory>
    ensures { IfOk result (λ b. box_view b ≡ form_view (figures_view figures.now) form.now) }
{
    let expr = build(alloc, figures, form)?;
    Ok(Box::new(alloc, expr)?)
}

#[cycle(build)]
fn build_all(
    alloc: Global,
    figures: &[Figure<'_>],
    forms: &[Form<'_>],
) -> Result<Vec<Expr>, NoMemory>
    ensures { IfOk result (λ list. trees_view list.items ≡ forms_view (figures_view figures.now) forms.now) }
{
    let mut all = Vec::new(alloc);
    for form in forms {
        all.push(build(alloc, figures, form)?)?;
    }
    Ok(all)
}

#[cycle(build)]
fn build_case(alloc: Global, figures: &[Figure<'_>], case: &When<'_>) -> Result<Case, NoMemory>
    ensures { IfOk result (λ c. case_view c ≡ when_view (figures_view figures.now) case.now) }
{
    let test = build_boxed(alloc, figures, &case.0)?;
    let outcome = build_boxed(alloc, figures, &case.1)?;
    Ok(case_of(test, outcome))
}

#[cycle(build)]
fn build_cases(
    alloc: Global,
    figures: &[Figure<'_>],
    cases: &[When<'_>],
) -> Result<Vec<Case>, NoMemory>
    ensures { IfOk result (λ list. cases_view list.items ≡ whens_view (figures_view figures.now) cases.now) }
{
    let mut all = Vec::new(alloc);
    for case in cases {
        all.push(build_case(alloc, figures, case)?)?;
    }
    Ok(all)
}
