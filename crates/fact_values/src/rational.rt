// Fractions in lowest terms, their sum and their difference.
ghost use Rattle.std.specs.Prelude.{◌≡◌, ◌*◌, ◌<◌, ◌≤◌, ◌^◌, pos, ◌*ℤ◌, unsigned_abs, int_div, IfErr};
ghost use Rattle.std.specs.Int.{IsGcd};
ghost use Rattle.fact_values.specs.Rationals.{IsRational, checked_lowest, checked_ratio, checked_small, difference_of_ratios, gcd as greatest_divisor, sum_of_ratios};

use crate::fault::ValueFault;
use std::marker::Model;

/// The size that neither term of a fraction exceeds.
const LARGEST: u128 = 1_000_000_000_000;

/// A fraction in lowest terms, with the sign in the numerator. The numerator is at most 10^12 in
/// size, and the denominator from 1 to 10^12.
#[derive(Clone, Copy, Debug, PartialEq, Eq)]
pub struct Rational {
    num: i64,
    den: u64,
}

impl Model for Rational {
    ghost use Rattle.std.specs.Prelude.{ℤ};
    ghost use Rattle.fact_values.specs.Rationals.{IsRational, Ratio};

    ghost Value = { Ratio };

    ghost view = { λ r. record { num = r.num; den = r.den } };

    ghost invariant = { λ r. IsRational (record { num = r.num; den = r.den }) };

    ghost inverse = { λ q. record { num = q.num; den = q.den } };
}

impl Rational {
    /// The fraction `num` over `den`: `ZeroDivide` where `den` is 0, and `Overflow` where the lowest
    /// terms leave the range.
    pub fn new(num: i128, den: i128) -> Result<Rational, ValueFault>
        requires num_size { unsigned_abs num ≤ 10 ^ 30 }
        requires den_size { unsigned_abs den ≤ 10 ^ 30 }
        ensures { result ≡ checked_ratio num den }
    {
        if den == 0 {
            Err(ValueFault::ZeroDivide)
        } else if den < 0 {
            lowest(-num, den.unsigned_abs())
        } else {
            lowest(num, den.unsigned_abs())
        }
    }

    /// The numerator, which has the sign.
    pub fn num(self) -> i64
        ensures value { result ≡ self.num }
        ensures rational { IsRational self }
    {
        self.num
    }

    /// The denominator.
    pub fn den(self) -> i64
        ensures value { result ≡ pos self.den }
        ensures rational { IsRational self }
    {
        self.den as i64
    }
}

/// The sum.
pub fn add_rational(a: Rational, b: Rational) -> Result<Rational, ValueFault>
    ensures sum { result ≡ sum_of_ratios a b }
    ensures overflow { IfErr result (λ fault. fault ≡ ValueFault.Overflow) }
{
    lowest(crosswise(a, b) + crosswise(b, a), denominator(a, b))
}

/// The difference, `a` less `b`.
pub fn subtract_rational(a: Rational, b: Rational) -> Result<Rational, ValueFault>
    ensures difference { result ≡ difference_of_ratios a b }
    ensures overflow { IfErr result (λ fault. fault ≡ ValueFault.Overflow) }
{
    lowest(crosswise(a, b) - crosswise(b, a), denominator(a, b))
}

/// The numerator of `a` over the denominator that both share.
pub(crate) fn crosswise(a: Rational, b: Rational) -> i128
    ensures value { result ≡ a.num *ℤ pos b.den }
    ensures size { unsigned_abs result ≤ 10 ^ 24 }
{
    i128::from(a.num) * i128::from(b.den)
}

/// A denominator that both share.
fn denominator(a: Rational, b: Rational) -> u128
    ensures value { result ≡ a.den * b.den }
    ensures size { result ≤ 10 ^ 24 }
    ensures some { 0 < result }
{
    u128::from(a.den) * u128::from(b.den)
}

/// The greatest number that divides both; where one of them is 0, the other.
fn gcd(a: u128, b: u128) -> u128
    ensures { result ≡ greatest_divisor a b }
{
    let mut divisor = a;
    let mut rest = b;
    while rest != 0 {
        let next = divisor % rest;
        divisor = rest;
        rest = next;
    }
    divisor
}

/// The fraction in lowest terms, or `Overflow`.
pub(crate) fn lowest(num: i128, den: u128) -> Result<Rational, ValueFault>
    requires num_size { unsigned_abs num ≤ 10 ^ 30 }
    requires den_size { den ≤ 10 ^ 30 }
    requires some { 0 < den }
    ensures value { result ≡ checked_lowest num den }
    ensures overflow { IfErr result (λ fault. fault ≡ ValueFault.Overflow) }
{
    let divisor = gcd(num.unsigned_abs(), den);
    small(divided(num, divisor), den / divisor)
}

/// The fraction of these two, or `Overflow` where one of them is too large.
fn small(num: i128, den: u128) -> Result<Rational, ValueFault>
    requires some { 0 < den }
    requires lowest { IsGcd (unsigned_abs num) den 1 }
    ensures value { result ≡ checked_small (record { num = num; den = den }) }
    ensures overflow { IfErr result (λ fault. fault ≡ ValueFault.Overflow) }
{
    if num.unsigned_abs() > LARGEST {
        Err(ValueFault::Overflow)
    } else if den > LARGEST {
        Err(ValueFault::Overflow)
    } else {
        Ok(Rational {
            num: num as i64,
            den: den as u64,
        })
    }
}

/// The quotient, rounded toward zero.
fn divided(num: i128, divisor: u128) -> i128
    requires size { unsigned_abs num ≤ 10 ^ 30 }
    requires some { 0 < divisor }
    ensures { result ≡ int_div num (pos divisor) }
{
    let size = (num.unsigned_abs() / divisor) as i128;
    if num < 0 { -size } else { size }
}
