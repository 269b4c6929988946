// Products, quotients and comparisons of values.
ghost use Rattle.std.specs.Prelude.{◌≡◌};
ghost use Rattle.fact_values.specs.Numbers.{product, quotient};
ghost use Rattle.fact_values.specs.Values.{order_of};

use fact_values::{Num, Value, ValueFault, compare, divide, multiply};
use std::cmp::Ordering;

/// The product; two amounts have none, and are at fault.
pub(crate) fn product(a: Num, b: Num) -> Result<Num, ValueFault>
    ensures { result ≡ product a b }
{
    match (a, b) {
        (Num::Dollar(_), Num::Dollar(_)) => Err(ValueFault::Overflow),
        _ => multiply(a, b),
    }
}

/// The quotient; a pair that has none is at fault.
pub(crate) fn quotient(a: Num, b: Num) -> Result<Num, ValueFault>
    ensures { result ≡ quotient a b }
{
    match (a, b) {
        (Num::Int(_), Num::Int(_)) => divide(a, b),
        (Num::Dollar(_), _) => divide(a, b),
        (Num::Rational(_), Num::Rational(_)) => divide(a, b),
        _ => Err(ValueFault::ZeroDivide),
    }
}

/// The order of two values of one type that has an order, and `Equal` for others.
pub(crate) fn order(a: &Value, b: &Value) -> Ordering
    ensures { result ≡ order_of a.now b.now }
{
    match (a, b) {
        (Value::Int(_), Value::Int(_)) => compare(a, b),
        (Value::Dollar(_), Value::Dollar(_)) => compare(a, b),
        (Value::Rational(_), Value::Rational(_)) => compare(a, b),
        (Value::Day(_), Value::Day(_)) => compare(a, b),
        _ => Ordering::Equal,
    }
}
