// Values of all types: their copies, equality and order.
ghost use Rattle.std.specs.Prelude.{◌≡◌, ◌↔◌, IsErr, IsTrue, IfOk};
ghost use Rattle.fact_values.specs.Values.{AreOrdered, HoldsMemory, order_of, ratio_cmp};

use crate::day::Day;
use crate::dollar::Dollar;
use crate::members::Members;
use crate::memory::NoMemory;
use crate::rational::{Rational, crosswise};
use crate::text::Text;
use crate::whole::Whole;
use std::alloc::Global;
use std::cmp::Ordering;

/// The value of a fact.
#[derive(Debug, Drop)]
pub enum Value {
    Boolean(bool),
    Int(Whole),
    Dollar(Dollar),
    Rational(Rational),
    Day(Day),
    Text(Text),
    /// The place of a list of options among the lists, and the place of the option in it, both
    /// from 0.
    Choice(u32, u32),
    Members(Members),
    /// A member's number, from 1 to 1,000,000.
    Item(u32),
}

impl Value {
    /// An equal value. It wants memory for a text or a list of members alone.
    pub fn copy(&self, alloc: Global) -> Result<Value, NoMemory>
        ensures value { IfOk result (λ v. v ≡ self.now) }
        ensures memory { IsErr result → HoldsMemory self.now }
    {
        Ok(match self {
            Value::Boolean(b) => Value::Boolean(*b),
            Value::Int(n) => Value::Int(*n),
            Value::Dollar(amount) => Value::Dollar(*amount),
            Value::Rational(q) => Value::Rational(*q),
            Value::Day(day) => Value::Day(*day),
            Value::Text(text) => Value::Text(text.copy(alloc)?),
            Value::Choice(list, place) => Value::Choice(*list, *place),
            Value::Members(members) => Value::Members(members.copy(alloc)?),
            Value::Item(member) => Value::Item(*member),
        })
    }
}

/// Whether the two are equal. Values of two variants never are.
pub fn same(a: &Value, b: &Value) -> bool
    ensures { IsTrue result ↔ (a.now ≡ b.now) }
{
    match (a, b) {
        (Value::Boolean(x), Value::Boolean(y)) => *x == *y,
        (Value::Int(x), Value::Int(y)) => *x == *y,
        (Value::Dollar(x), Value::Dollar(y)) => *x == *y,
        (Value::Rational(x), Value::Rational(y)) => *x == *y,
        (Value::Day(x), Value::Day(y)) => *x == *y,
        (Value::Text(x), Value::Text(y)) => x.as_str() == y.as_str(),
        (Value::Choice(x, i), Value::Choice(y, j)) => *x == *y && *i == *j,
        (Value::Members(x), Value::Members(y)) => x.as_slice() == y.as_slice(),
        (Value::Item(x), Value::Item(y)) => *x == *y,
        _ => false,
    }
}

/// The order of two whole numbers, two amounts, two fractions or two days.
pub fn compare(a: &Value, b: &Value) -> Ordering
    requires { AreOrdered a.now b.now }
    ensures { result ≡ order_of a.now b.now }
{
    match (a, b) {
        (Value::Int(x), Value::Int(y)) => x.get().cmp(&y.get()),
        (Value::Dollar(x), Value::Dollar(y)) => x.cents().cmp(&y.cents()),
        (Value::Rational(x), Value::Rational(y)) => compare_rationals(*x, *y),
        (Value::Day(x), Value::Day(y)) => x.number().cmp(&y.number()),
        _ => unreachable!(),
    }
}

/// The order of two fractions, by their numerators over one denominator.
fn compare_rationals(a: Rational, b: Rational) -> Ordering
    ensures { result ≡ ratio_cmp a b }
{
    crosswise(a, b).cmp(&crosswise(b, a))
}
