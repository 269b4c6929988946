// Takes a value as one of the type that it is known to have.
ghost use Rattle.std.specs.Prelude.{◌≡◌};
ghost use Rattle.evaluation.specs.Operations.{day_in, dollar_in, int_in, no_ratio, number_in, ratio_in};

use fact_values::{Day, Dollar, Num, Rational, Value, Whole};

/// The whole number, and 0 in another value.
pub(crate) fn whole_in(value: &Value) -> Whole
    ensures { result ≡ int_in value.now }
{
    match value {
        Value::Int(n) => *n,
        _ => Whole::new(0).unwrap(),
    }
}

/// The amount, and 0 in another value.
pub(crate) fn dollar_in(value: &Value) -> Dollar
    ensures { result ≡ dollar_in value.now }
{
    match value {
        Value::Dollar(amount) => *amount,
        _ => Dollar::new(0).unwrap(),
    }
}

/// The day, and 1970-01-01 in another value.
pub(crate) fn day_in(value: &Value) -> Day
    ensures { result ≡ day_in value.now }
{
    match value {
        Value::Day(day) => *day,
        _ => Day::of_number(0).unwrap(),
    }
}

/// The number that is multiplied or divided, and a whole 0 in another value.
pub(crate) fn number_in(value: &Value) -> Num
    ensures { result ≡ number_in value.now }
{
    match value {
        Value::Dollar(amount) => Num::Dollar(*amount),
        Value::Rational(q) => Num::Rational(*q),
        _ => Num::Int(whole_in(value)),
    }
}

/// The fraction, and 0 in another value.
pub(crate) fn ratio_in(value: &Value) -> Rational
    ensures { result ≡ ratio_in value.now }
{
    match value {
        Value::Rational(q) => *q,
        _ => no_ratio(),
    }
}

/// The fraction 0.
pub(crate) fn no_ratio() -> Rational
    ensures { result ≡ no_ratio }
{
    Rational::new(0, 1).unwrap()
}
