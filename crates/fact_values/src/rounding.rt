// Rounding to the nearest whole number, and of an amount to whole dollars.
ghost use Rattle.std.specs.Prelude.{◌≡◌, ◌≤◌, ◌^◌, unsigned_abs};
ghost use Rattle.fact_values.specs.Rounding.{rounded, rounded_dollar};

use crate::dollar::Dollar;
use crate::fault::ValueFault;

/// The whole number nearest to `num / den`, at a tie the one farther from zero.
pub(crate) fn divide_rounded(num: i128, den: u128) -> i128
    requires divisor { 1 ≤ den }
    requires small_num { unsigned_abs num ≤ 10 ^ 30 }
    requires small_den { den ≤ 10 ^ 30 }
    ensures { result ≡ rounded num den }
{
    let size = (2 * num.unsigned_abs() + den) / (2 * den);
    if num < 0 {
        -(size as i128)
    } else {
        size as i128
    }
}

/// The nearest amount in whole dollars, at a tie the one farther from zero. It overflows from
/// 9999999999999.50 on, and from -9999999999999.50 down.
pub fn round_dollar(d: Dollar) -> Result<Dollar, ValueFault>
    ensures { result ≡ rounded_dollar d }
{
    let dollars = divide_rounded(i128::from(d.cents()), 100);
    match Dollar::new((dollars * 100) as i64) {
        Some(rounded) => Ok(rounded),
        None => Err(ValueFault::Overflow),
    }
}
