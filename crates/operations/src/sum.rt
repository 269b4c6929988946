// Sums of values of one type.
ghost use Rattle.std.specs.Prelude.{◌≡◌, ◌<◌, ◌^◌};
ghost use Rattle.evaluation.specs.Operations.{no_ratio, ratio_in, value_as};
ghost use Rattle.fact_values.specs.Rationals.{difference_of_ratios, sum_of_ratios};
ghost use Rattle.fact_values.specs.Totals.{checked};
ghost use Rattle.operations.specs.NumberRuns.{summed_as as as_summed};
ghost use Rattle.operations.specs.Sums.{added, calls_in, difference_of_seen, first_summed, subtracted, sum_of_seen};

use crate::values::{dollar_in, no_ratio, ratio_in, whole_in};
use fact_values::{
    Dollar, Rational, Total, Value, ValueFault, Whole, add_rational, subtract_rational,
};

/// What an Add or a Subtract keeps of the values seen. The first of them says of which type they
/// are.
#[derive(Drop)]
pub enum Summed {
    Nothing,
    Ints(Total),
    Dollars(Total),
    /// The first fraction, where no other value was seen.
    First(Rational),
    /// The first two fractions.
    Two(Rational, Rational),
}

impl Summed {
    /// Adds a value to those seen.
    #[inline(always)]
    pub fn add(&mut self, value: &Value)
        requires few { calls_in self.old < 2 ^ 64 }
        ensures { self.new ≡ added self.old value.now }
    {
        match self {
            Summed::Nothing => *self = first_summed(value),
            Summed::Ints(total) => total.plus(whole_in(value).get()),
            Summed::Dollars(total) => total.plus(dollar_in(value).cents()),
            Summed::First(q) => *self = second_summed(*q, value),
            Summed::Two(_, _) => {}
        }
    }

    /// Takes a value away from the first one, which is seen alike.
    #[inline(always)]
    pub fn subtract(&mut self, value: &Value)
        requires few { calls_in self.old < 2 ^ 64 }
        ensures { self.new ≡ subtracted self.old value.now }
    {
        match self {
            Summed::Nothing => *self = first_summed(value),
            Summed::Ints(total) => total.minus(whole_in(value).get()),
            Summed::Dollars(total) => total.minus(dollar_in(value).cents()),
            Summed::First(q) => *self = second_summed(*q, value),
            Summed::Two(_, _) => {}
        }
    }

    /// The sum of the values seen.
    pub fn sum(&self) -> Result<Value, ValueFault>
        ensures { result ≡ sum_of_seen self.now }
    {
        match self {
            Summed::Nothing => Ok(Value::Int(Whole::new(0).unwrap())),
            Summed::Ints(total) => whole_of(total),
            Summed::Dollars(total) => dollar_of(total),
            Summed::First(q) => rational_of(add_rational(*q, no_ratio())),
            Summed::Two(q, r) => rational_of(add_rational(*q, *r)),
        }
    }

    /// The first of the values seen, less the rest.
    pub fn difference(&self) -> Result<Value, ValueFault>
        ensures { result ≡ difference_of_seen self.now }
    {
        match self {
            Summed::Nothing => Ok(Value::Int(Whole::new(0).unwrap())),
            Summed::Ints(total) => whole_of(total),
            Summed::Dollars(total) => dollar_of(total),
            Summed::First(q) => rational_of(subtract_rational(*q, no_ratio())),
            Summed::Two(q, r) => rational_of(subtract_rational(*q, *r)),
        }
    }
}

/// The sum of whole numbers, or of amounts.
pub fn summed_as(are_amounts: bool, total: Total) -> Summed
    ensures { result ≡ as_summed are_amounts total }
{
    match are_amounts {
        true => Summed::Dollars(total),
        false => Summed::Ints(total),
    }
}

/// What is kept of the first value.
#[inline(never)]
fn first_summed(value: &Value) -> Summed
    ensures { result ≡ first_summed value.now }
{
    match value {
        Value::Dollar(amount) => Summed::Dollars(Total::new(amount.cents())),
        Value::Rational(q) => Summed::First(*q),
        _ => Summed::Ints(Total::new(whole_in(value).get())),
    }
}

/// What is kept of the first fraction and the next value.
#[inline(never)]
fn second_summed(first: Rational, value: &Value) -> Summed
    ensures { result ≡ Summed.Two first (ratio_in value.now) }
{
    Summed::Two(first, ratio_in(value))
}

/// The sum as a whole number.
pub(crate) fn whole_of(total: &Total) -> Result<Value, ValueFault>
    ensures { result ≡ value_as Value.Int (checked total.now.exact) }
{
    match Whole::new(total.end()?) {
        Some(n) => Ok(Value::Int(n)),
        None => Err(ValueFault::Overflow),
    }
}

/// The sum as an amount.
pub(crate) fn dollar_of(total: &Total) -> Result<Value, ValueFault>
    ensures { result ≡ value_as Value.Dollar (checked total.now.exact) }
{
    match Dollar::new(total.end()?) {
        Some(amount) => Ok(Value::Dollar(amount)),
        None => Err(ValueFault::Overflow),
    }
}

fn rational_of(done: Result<Rational, ValueFault>) -> Result<Value, ValueFault>
    ensures { result ≡ value_as Value.Rational done }
{
    match done {
        Ok(q) => Ok(Value::Rational(q)),
        Err(fault) => Err(fault),
    }
}
