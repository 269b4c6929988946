// The day so many months or years later.
ghost use Rattle.std.specs.Prelude.{◌≡◌, ◌≤◌, ◌<◌, ◌^◌, pos, ◌-ℤ◌, unsigned_abs};
ghost use Rattle.std.specs.Int.{IsInRange};
ghost use Rattle.law_arithmetic.specs.Dates.{date_of as date, numbered};
ghost use Rattle.law_arithmetic.specs.Months.{IsMonthsLater, IsYearsLater, after_january, in_month, months_after, months_up_to, years_after};

use crate::civil_date::{CivilDate, date_of};
use fact_values::{Day, ValueFault, Whole};
use jiff_core::civil::Date;

/// The first year of the range of days.
const FIRST_YEAR: i64 = 1800;

/// The last year of the range of days.
const LAST_YEAR: i64 = 2199;

/// The same day of the month so many months later, or earlier for a negative number; where that
/// month lacks the day, its last. `Overflow` out of the years 1800 to 2199.
pub fn add_months(day: Day, months: Whole) -> Result<Day, ValueFault>
    ensures value { result ≡ months_after day months }
    ensures date { (later : CivilDate) × IsMonthsLater (date day) months later × (result ≡ numbered later) }
{
    let date = date_of(day);
    let total = months_before(date) + months.get();
    after_january(total, date.day)
}

/// The same day of the year so many years later, or earlier for a negative number; 28 February for
/// a 29th that the year lacks. `Overflow` out of the years 1800 to 2199.
pub fn add_years(day: Day, years: Whole) -> Result<Day, ValueFault>
    ensures value { result ≡ years_after day years }
    ensures date { (later : CivilDate) × IsYearsLater (date day) years later × (result ≡ numbered later) }
{
    let date = date_of(day);
    in_month(date.year + years.get(), date.month, date.day)
}

/// The months before a date's own, of all years from 0 on.
fn months_before(date: CivilDate) -> i64
    requires { unsigned_abs date.year < 10 ^ 4 }
    ensures { result ≡ months_up_to date -ℤ pos 1 }
{
    12 * date.year + i64::from(date.month) - 1
}

/// The day of the month that so many months from January of the year 0 on lead to, or the month's
/// last; `Overflow` where the year is out of range.
fn after_january(months: i64, day: u8) -> Result<Day, ValueFault>
    requires { 1 ≤ day }
    ensures { result ≡ numbered (after_january months day) }
{
    in_month(months.div_euclid(12), months.rem_euclid(12) as u8 + 1, day)
}

/// The day of a month, or the month's last; `Overflow` where the year is out of range.
fn in_month(year: i64, month: u8, day: u8) -> Result<Day, ValueFault>
    requires month { IsInRange 1 12 month }
    requires day { 1 ≤ day }
    ensures { result ≡ numbered (in_month year month day) }
{
    if year < FIRST_YEAR || LAST_YEAR < year {
        return Err(ValueFault::Overflow);
    }
    let date = Date::constrain(year as i16, month, day);
    match Day::of_number(i64::from(date.to_unix_epoch_day())) {
        Some(later) => Ok(later),
        None => Err(ValueFault::Overflow),
    }
}
