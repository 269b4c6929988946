// Products and quotients of whole numbers, amounts and fractions.
ghost use Rattle.std.specs.Prelude.{◌≡◌, ◌≤◌, ◌<◌, ◌^◌, ◌↔◌, ◌*ℤ◌, unsigned_abs, IfErr};
ghost use Rattle.fact_values.specs.Numbers.{IsDivided, IsMultiplied, IsZero, checked_dollar, checked_int, checked_rational, as_rational, product, quotient, rounded_quotient};
ghost use Rattle.fact_values.specs.Rationals.{checked_ratio};

use crate::dollar::Dollar;
use crate::fault::ValueFault;
use crate::range::LIMIT;
use crate::rational::{Rational, lowest};
use crate::rounding::divide_rounded;
use crate::whole::Whole;

/// A number that can be multiplied or divided.
#[derive(Clone, Copy, Debug, PartialEq, Eq)]
pub enum Num {
    /// A whole number.
    Int(Whole),
    /// An amount of money.
    Dollar(Dollar),
    /// A fraction.
    Rational(Rational),
}

/// The product, exact, but for an amount times a fraction, which is rounded to the cent. Two
/// amounts have none.
pub fn multiply(a: Num, b: Num) -> Result<Num, ValueFault>
    requires { IsMultiplied a b }
    ensures product { result ≡ product a b }
    ensures overflow { IfErr result (λ fault. fault ≡ ValueFault.Overflow) }
{
    match a {
        Num::Int(n) => int_times(n, b),
        Num::Dollar(amount) => dollar_times(amount, b),
        Num::Rational(q) => rational_times(q, b),
    }
}

fn int_times(n: Whole, b: Num) -> Result<Num, ValueFault>
    ensures product { result ≡ product (Num.Int n) b }
    ensures overflow { IfErr result (λ fault. fault ≡ ValueFault.Overflow) }
{
    match b {
        Num::Int(m) => int(exact(n.get(), m.get())),
        Num::Dollar(amount) => dollar(exact(n.get(), amount.cents())),
        Num::Rational(q) => rational(exact(n.get(), q.num()), denominator(q)),
    }
}

fn dollar_times(amount: Dollar, b: Num) -> Result<Num, ValueFault>
    requires { IsMultiplied (Num.Dollar amount) b }
    ensures product { result ≡ product (Num.Dollar amount) b }
    ensures overflow { IfErr result (λ fault. fault ≡ ValueFault.Overflow) }
{
    match b {
        Num::Int(n) => dollar(exact(amount.cents(), n.get())),
        Num::Dollar(_) => unreachable!(),
        Num::Rational(q) => dollar(divide_rounded(exact(amount.cents(), q.num()), denominator(q))),
    }
}

fn rational_times(q: Rational, b: Num) -> Result<Num, ValueFault>
    ensures product { result ≡ product (Num.Rational q) b }
    ensures overflow { IfErr result (λ fault. fault ≡ ValueFault.Overflow) }
{
    match b {
        Num::Int(n) => rational(exact(q.num(), n.get()), denominator(q)),
        Num::Dollar(amount) => dollar(divide_rounded(
            exact(q.num(), amount.cents()),
            denominator(q),
        )),
        Num::Rational(r) => rational(exact(q.num(), r.num()), denominator(q) * denominator(r)),
    }
}

/// The quotient: of an amount by a number or a fraction it is rounded to the cent, and else it is
/// a fraction. A number and a fraction have none, nor does either by an amount.
pub fn divide(a: Num, b: Num) -> Result<Num, ValueFault>
    requires { IsDivided a b }
    ensures quotient { result ≡ quotient a b }
    ensures zero { (result ≡ Err ValueFault.ZeroDivide) ↔ IsZero b }
{
    match a {
        Num::Int(n) => int_by(n, b),
        Num::Dollar(amount) => dollar_by(amount, b),
        Num::Rational(q) => rational_by(q, b),
    }
}

fn int_by(n: Whole, b: Num) -> Result<Num, ValueFault>
    requires { IsDivided (Num.Int n) b }
    ensures { result ≡ quotient (Num.Int n) b }
{
    match b {
        Num::Int(m) => ratio(i128::from(n.get()), i128::from(m.get())),
        Num::Dollar(_) => unreachable!(),
        Num::Rational(_) => unreachable!(),
    }
}

fn dollar_by(amount: Dollar, b: Num) -> Result<Num, ValueFault>
    ensures { result ≡ quotient (Num.Dollar amount) b }
{
    match b {
        Num::Int(n) => rounded(i128::from(amount.cents()), i128::from(n.get())),
        Num::Dollar(other) => ratio(i128::from(amount.cents()), i128::from(other.cents())),
        Num::Rational(q) => rounded(exact(amount.cents(), q.den()), i128::from(q.num())),
    }
}

fn rational_by(q: Rational, b: Num) -> Result<Num, ValueFault>
    requires { IsDivided (Num.Rational q) b }
    ensures { result ≡ quotient (Num.Rational q) b }
{
    match b {
        Num::Int(_) => unreachable!(),
        Num::Dollar(_) => unreachable!(),
        Num::Rational(r) => ratio(exact(q.num(), r.den()), exact(r.num(), q.den())),
    }
}

/// The product of two numbers of the size of a value.
fn exact(a: i64, b: i64) -> i128
    requires a_size { unsigned_abs a ≤ 10 ^ 15 }
    requires b_size { unsigned_abs b ≤ 10 ^ 15 }
    ensures value { result ≡ a *ℤ b }
    ensures size { unsigned_abs result ≤ 10 ^ 30 }
{
    i128::from(a) * i128::from(b)
}

/// The denominator.
fn denominator(q: Rational) -> u128
    ensures value { result ≡ q.den }
    ensures some { 0 < result }
    ensures size { result ≤ 10 ^ 12 }
{
    u128::from(q.den().unsigned_abs())
}

/// The whole number as a value, or `Overflow`.
fn int(n: i128) -> Result<Num, ValueFault>
    ensures value { result ≡ checked_int n }
    ensures overflow { IfErr result (λ fault. fault ≡ ValueFault.Overflow) }
{
    if n.unsigned_abs() < u128::from(LIMIT) {
        match Whole::new(n as i64) {
            Some(whole) => Ok(Num::Int(whole)),
            None => Err(ValueFault::Overflow),
        }
    } else {
        Err(ValueFault::Overflow)
    }
}

/// The amount of so many cents, or `Overflow`.
fn dollar(cents: i128) -> Result<Num, ValueFault>
    ensures value { result ≡ checked_dollar cents }
    ensures overflow { IfErr result (λ fault. fault ≡ ValueFault.Overflow) }
{
    if cents.unsigned_abs() < u128::from(LIMIT) {
        match Dollar::new(cents as i64) {
            Some(amount) => Ok(Num::Dollar(amount)),
            None => Err(ValueFault::Overflow),
        }
    } else {
        Err(ValueFault::Overflow)
    }
}

/// The fraction in lowest terms, or `Overflow`.
fn rational(num: i128, den: u128) -> Result<Num, ValueFault>
    requires num_size { unsigned_abs num ≤ 10 ^ 30 }
    requires den_size { den ≤ 10 ^ 30 }
    requires some { 0 < den }
    ensures value { result ≡ checked_rational num den }
    ensures overflow { IfErr result (λ fault. fault ≡ ValueFault.Overflow) }
{
    match lowest(num, den) {
        Ok(q) => Ok(Num::Rational(q)),
        Err(fault) => Err(fault),
    }
}

/// The fraction in lowest terms, `ZeroDivide` or `Overflow`.
fn ratio(num: i128, den: i128) -> Result<Num, ValueFault>
    requires num_size { unsigned_abs num ≤ 10 ^ 30 }
    requires den_size { unsigned_abs den ≤ 10 ^ 30 }
    ensures { result ≡ as_rational (checked_ratio num den) }
{
    match Rational::new(num, den) {
        Ok(q) => Ok(Num::Rational(q)),
        Err(fault) => Err(fault),
    }
}

/// The amount of so many cents, rounded, `ZeroDivide` or `Overflow`.
fn rounded(num: i128, den: i128) -> Result<Num, ValueFault>
    requires num_size { unsigned_abs num ≤ 10 ^ 30 }
    requires den_size { unsigned_abs den ≤ 10 ^ 30 }
    ensures { result ≡ rounded_quotient num den }
{
    if den == 0 {
        Err(ValueFault::ZeroDivide)
    } else if den < 0 {
        dollar(divide_rounded(-num, den.unsigned_abs()))
    } else {
        dollar(divide_rounded(num, den.unsigned_abs()))
    }
}
