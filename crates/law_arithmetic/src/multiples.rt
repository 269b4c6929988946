// Rounding of amounts, and of exact numbers of dollars, to the multiples of an increment.
ghost use Rattle.std.specs.Prelude.{◌≡◌, ◌≤◌, ◌+◌, ◌^◌, ◌*◌, pos, neg_ℤ, ◌*ℤ◌, unsigned_abs, ℤ};
ghost use Rattle.std.specs.Int.{int_div_euclid};
ghost use Rattle.fact_values.specs.Rounding.{rounded};
ghost use Rattle.fact_values.specs.Totals.{checked};
ghost use Rattle.law_arithmetic.specs.Multiples.{IsRoundedUp, IsRoundedDown, IsRoundedNearest, cents_of as exact_cents, rounded_up, rounded_down, rounded_nearest};

use crate::increment::Increment;
use fact_values::laws::rounding_is_nearest;
use fact_values::{Dollar, Num, ValueFault};

/// The size that no amount in cents reaches.
const LIMIT: u128 = 1_000_000_000_000_000;

/// A fraction of whole numbers.
#[derive(Clone, Copy)]
struct Fraction {
    num: i128,
    den: u128,
}

/// The least multiple of the increment that is at least the number: an amount, or a whole number or
/// a fraction of dollars, which isn't rounded before. `Overflow` where it leaves the range of amounts.
pub fn round_up(n: Num, increment: Increment) -> Result<Dollar, ValueFault>
    ensures value { result ≡ rounded_up increment n }
    ensures least { (least : ℤ) × IsRoundedUp increment (exact_cents n) least × (result ≡ checked least) }
{
    let cents = cents_of(n);
    times(divide_up(cents.num, parts(cents, increment)), increment)
}

/// The greatest multiple of the increment that is at most the number, of which `round_up` speaks.
/// `Overflow` where it leaves the range of amounts.
pub fn round_down(n: Num, increment: Increment) -> Result<Dollar, ValueFault>
    ensures value { result ≡ rounded_down increment n }
    ensures greatest { (greatest : ℤ) × IsRoundedDown increment (exact_cents n) greatest × (result ≡ checked greatest) }
{
    let cents = cents_of(n);
    times(divide_down(cents.num, parts(cents, increment)), increment)
}

/// The multiple of the increment that is nearest to the number, of which `round_up` speaks, at a
/// tie the one farther from zero. `Overflow` where it leaves the range of amounts.
pub fn round_nearest(n: Num, increment: Increment) -> Result<Dollar, ValueFault>
    ensures value { result ≡ rounded_nearest increment n }
    ensures nearest { (nearest : ℤ) × IsRoundedNearest increment (exact_cents n) nearest × (result ≡ checked nearest) }
{
    // The law that the proof rests on.
    rounding_is_nearest();
    let cents = cents_of(n);
    times(divide_near(cents.num, parts(cents, increment)), increment)
}

/// How many cents the number is.
fn cents_of(n: Num) -> Fraction
    ensures num { result.num ≡ (exact_cents n).num }
    ensures den { result.den ≡ (exact_cents n).den }
    ensures size { unsigned_abs result.num ≤ 10 ^ 17 }
    ensures some { 1 ≤ result.den }
    ensures small { result.den ≤ 10 ^ 12 }
{
    match n {
        Num::Int(dollars) => Fraction {
            num: 100 * i128::from(dollars.get()),
            den: 1,
        },
        Num::Dollar(amount) => Fraction {
            num: i128::from(amount.cents()),
            den: 1,
        },
        Num::Rational(dollars) => Fraction {
            num: 100 * i128::from(dollars.num()),
            den: u128::from(dollars.den().unsigned_abs()),
        },
    }
}

/// How many parts of a cent, of which the denominator says how many make one, make an increment.
fn parts(cents: Fraction, increment: Increment) -> u128
    requires some { 1 ≤ cents.den }
    requires small { cents.den ≤ 10 ^ 12 }
    ensures value { result ≡ cents.den * increment }
    ensures increment { 1 ≤ increment }
    ensures some { 1 ≤ result }
    ensures small { result ≤ 10 ^ 27 }
{
    cents.den * u128::from(increment.cents())
}

/// The quotient, rounded down.
fn divide_down(num: i128, den: u128) -> i128
    requires size { unsigned_abs num ≤ 10 ^ 17 }
    requires some { 1 ≤ den }
    requires small { den ≤ 10 ^ 27 }
    ensures { result ≡ int_div_euclid num (pos den) }
{
    num.div_euclid(den as i128)
}

/// The quotient, rounded up.
fn divide_up(num: i128, den: u128) -> i128
    requires size { unsigned_abs num ≤ 10 ^ 17 }
    requires some { 1 ≤ den }
    requires small { den ≤ 10 ^ 27 }
    ensures { result ≡ neg_ℤ (int_div_euclid (neg_ℤ num) (pos den)) }
{
    -divide_down(-num, den)
}

/// The quotient, rounded to the nearest whole number, at a tie to the one farther from zero.
fn divide_near(num: i128, den: u128) -> i128
    requires size { unsigned_abs num ≤ 10 ^ 17 }
    requires some { 1 ≤ den }
    requires small { den ≤ 10 ^ 27 }
    ensures { result ≡ rounded num den }
{
    let size = (2 * num.unsigned_abs() + den) / (2 * den);
    if num < 0 {
        -(size as i128)
    } else {
        size as i128
    }
}

/// So many increments, or `Overflow`.
fn times(n: i128, increment: Increment) -> Result<Dollar, ValueFault>
    requires { unsigned_abs n ≤ 10 ^ 17 + 1 }
    ensures { result ≡ checked (n *ℤ pos increment) }
{
    let cents = n * i128::from(increment.cents());
    if cents.unsigned_abs() >= LIMIT {
        return Err(ValueFault::Overflow);
    }
    match Dollar::new(cents as i64) {
        Some(amount) => Ok(amount),
        None => Err(ValueFault::Overflow),
    }
}
