// The texts of fractions.
ghost use Rattle.std.specs.Prelude.{◌≡◌, ◌+◌, ◌^◌, ◌<◌, ◌≤◌, ◌++◌, length, IfSome, MatchOption, pos, unsigned_abs};
ghost use Rattle.fact_paths.specs.Cuts.{at_slash};
ghost use Rattle.fact_values.specs.Rationals.{checked_ratio};
ghost use Rattle.value_text.specs.Fractions.{fraction_from, kept, printed_rational, rational_at};

use crate::digits::read_digits;
use crate::line::Line;
use crate::whole::{print_number, print_size, read_number};
use fact_values::Rational;

// The texts before and behind the first slash.
fn cut_at_slash(text: &str) -> Option<(&str, &str)>
    ensures { MatchOption result (at_slash text.now ≡ None) (λ found. at_slash text.now
        ≡ Some (found.0.now, found.1.now)) }
{
    text.split_once('/')
}

// The two terms that a text writes, the second of them 1 where it has no slash.
fn read_terms(text: &str) -> Option<(i64, u64)>
    ensures value { result ≡ fraction_from text.now (at_slash text.now) }
    ensures num { IfSome result (λ terms. unsigned_abs terms.0 < 10 ^ 15) }
    ensures den { IfSome result (λ terms. terms.1 < 10 ^ 15) }
{
    match cut_at_slash(text) {
        None => {
            let num = read_number(text.as_bytes())?;
            Some((num, 1))
        }
        Some((num, den)) => {
            let num = read_number(num.as_bytes())?;
            let den = read_digits(1, 15, den.as_bytes())?;
            Some((num, den))
        }
    }
}

// The fraction of two terms in lowest terms, if there is one.
fn rational_of(num: i64, den: u64) -> Option<Rational>
    requires num_size { unsigned_abs num < 10 ^ 15 }
    requires den_size { den < 10 ^ 15 }
    ensures { result ≡ kept (checked_ratio num (pos den)) }
{
    match Rational::new(i128::from(num), i128::from(den)) {
        Ok(rational) => Some(rational),
        Err(_) => None,
    }
}

/// The fraction that a text spells.
pub(crate) fn read_rational(text: &str) -> Option<Rational>
    ensures { result ≡ rational_at text.now }
{
    let (num, den) = read_terms(text)?;
    rational_of(num, den)
}

/// Appends a fraction, as `-2/3`.
pub(crate) fn print_rational(rational: Rational, out: &mut Line)
    requires { length out.old + 32 ≤ 1100 }
    ensures appended { out.new ≡ out.old ++ printed_rational rational }
    ensures short { length out.new ≤ length out.old + 32 }
{
    print_number(rational.num(), out);
    out.push(b"/");
    print_size(rational.den().unsigned_abs(), out);
}
