// Nodes with two operands.
ghost use Rattle.std.specs.Prelude.{◌≡◌, Ok};
ghost use Rattle.evaluation.specs.Operations.{dollar_in, increment_of, number_in, number_value, to_multiple, two_value, value_as};
ghost use Rattle.evaluation.specs.Over.{two_of};
ghost use Rattle.fact_values.specs.Numbers.{product, quotient};
ghost use Rattle.law_arithmetic.specs.Multiples.{rounded_down as down, rounded_nearest as near, rounded_up as up};
ghost use Rattle.three_state.specs.Equality.{value_same};
ghost use Rattle.three_state.specs.Results.{outcome};

use crate::numbers::{order, product, quotient};
use crate::values::{day_in, dollar_in, number_in, whole_in};
use dict_source::TwoOp;
use fact_values::{Day, Dollar, Num, Value, ValueFault, add_days, same};
use law_arithmetic::{
    Increment, add_months, add_years, age_on, days_between, round_down, round_nearest, round_up,
};
use three_state::{Res, finish};

/// The result of a node with two operands.
pub fn two(op: TwoOp, first: &Res, second: &Res) -> Res
    ensures { result ≡ two_of op first.now second.now }
{
    match first {
        Res::Complete(a) => after_first(op, true, a, second),
        Res::Placeholder(a) => after_first(op, false, a, second),
        Res::Incomplete => Res::Incomplete,
        Res::Fault(fault) => match second {
            Res::Incomplete => Res::Incomplete,
            _ => Res::Fault(*fault),
        },
    }
}

/// The result where the first operand has a value. The flag says that it is complete.
fn after_first(op: TwoOp, complete: bool, a: &Value, second: &Res) -> Res
    ensures { result ≡ two_of op (outcome complete (Ok a.now)) second.now }
{
    match second {
        Res::Complete(b) => finish(complete, two_value(op, a, b)),
        Res::Placeholder(b) => finish(false, two_value(op, a, b)),
        Res::Incomplete => Res::Incomplete,
        Res::Fault(fault) => Res::Fault(*fault),
    }
}

fn two_value(op: TwoOp, a: &Value, b: &Value) -> Result<Value, ValueFault>
    ensures { result ≡ two_value op a.now b.now }
{
    match op {
        TwoOp::Multiply => multiplied(a, b),
        TwoOp::Divide => divided(a, b),
        TwoOp::AddDays => day_found(add_days(day_in(a), whole_in(b))),
        TwoOp::Equal => Ok(Value::Boolean(is_same(a, b))),
        TwoOp::NotEqual => Ok(Value::Boolean(!is_same(a, b))),
        TwoOp::GreaterThan => Ok(Value::Boolean(order(a, b).is_gt())),
        TwoOp::LessThan => Ok(Value::Boolean(order(a, b).is_lt())),
        TwoOp::GreaterThanOrEqual => Ok(Value::Boolean(!order(a, b).is_lt())),
        TwoOp::LessThanOrEqual => Ok(Value::Boolean(!order(a, b).is_gt())),
        TwoOp::AddMonths => day_found(add_months(day_in(a), whole_in(b))),
        TwoOp::AddYears => day_found(add_years(day_in(a), whole_in(b))),
        TwoOp::DaysBetween => Ok(Value::Int(days_between(day_in(a), day_in(b)))),
        TwoOp::AgeOn => Ok(Value::Int(age_on(day_in(a), day_in(b)))),
        TwoOp::RoundUp => rounded_up(a, b),
        TwoOp::RoundDown => rounded_down(a, b),
        TwoOp::RoundNearest => rounded_nearest(a, b),
    }
}

fn multiplied(a: &Value, b: &Value) -> Result<Value, ValueFault>
    ensures { result ≡ value_as number_value (product (number_in a.now) (number_in b.now)) }
{
    match product(number_in(a), number_in(b)) {
        Ok(number) => Ok(number_value(number)),
        Err(fault) => Err(fault),
    }
}

fn divided(a: &Value, b: &Value) -> Result<Value, ValueFault>
    ensures { result ≡ value_as number_value (quotient (number_in a.now) (number_in b.now)) }
{
    match quotient(number_in(a), number_in(b)) {
        Ok(number) => Ok(number_value(number)),
        Err(fault) => Err(fault),
    }
}

fn number_value(number: Num) -> Value
    ensures { result ≡ number_value number }
{
    match number {
        Num::Int(n) => Value::Int(n),
        Num::Dollar(amount) => Value::Dollar(amount),
        Num::Rational(q) => Value::Rational(q),
    }
}

fn day_found(day: Result<Day, ValueFault>) -> Result<Value, ValueFault>
    ensures { result ≡ value_as Value.Day day }
{
    match day {
        Ok(day) => Ok(Value::Day(day)),
        Err(fault) => Err(fault),
    }
}

fn amount_found(amount: Result<Dollar, ValueFault>) -> Result<Value, ValueFault>
    ensures { result ≡ value_as Value.Dollar amount }
{
    match amount {
        Ok(amount) => Ok(Value::Dollar(amount)),
        Err(fault) => Err(fault),
    }
}

/// The amount to whose multiples is rounded. Where it isn't positive, the fault of a division by 0.
fn increment_in(unit: &Value) -> Result<Increment, ValueFault>
    ensures { result ≡ increment_of (dollar_in unit.now) }
{
    match Increment::new(dollar_in(unit)) {
        Some(increment) => Ok(increment),
        None => Err(ValueFault::ZeroDivide),
    }
}

fn rounded_up(number: &Value, unit: &Value) -> Result<Value, ValueFault>
    ensures { result ≡ value_as Value.Dollar (to_multiple up (number_in number.now) (dollar_in unit.now)) }
{
    amount_found(round_up(number_in(number), increment_in(unit)?))
}

fn rounded_down(number: &Value, unit: &Value) -> Result<Value, ValueFault>
    ensures { result ≡ value_as Value.Dollar (to_multiple down (number_in number.now) (dollar_in unit.now)) }
{
    amount_found(round_down(number_in(number), increment_in(unit)?))
}

fn rounded_nearest(number: &Value, unit: &Value) -> Result<Value, ValueFault>
    ensures { result ≡ value_as Value.Dollar (to_multiple near (number_in number.now) (dollar_in unit.now)) }
{
    amount_found(round_nearest(number_in(number), increment_in(unit)?))
}

#[tactic(auto, using(three_state::proofs::EqualityLaws::answers_value_same))]
fn is_same(a: &Value, b: &Value) -> bool
    ensures { result ≡ value_same a.now b.now }
{
    same(a, b)
}
