// Days of the Gregorian calendar, as numbers, and a day so many days later.
ghost use Rattle.std.specs.Prelude.{◌≡◌, ◌↔◌, ℤ, pos, IsSome, IfSome, IfErr};
ghost use Rattle.jiff_core.specs.Calendar.{IsDate};
ghost use Rattle.jiff_core.specs.Date.{IsYmd, epoch_day};
ghost use Rattle.fact_values.specs.Days.{IsDay, IsDateInRange, IsDateOf, day_after, is_day as in_range, number_of, year_of};

use crate::fault::ValueFault;
use crate::whole::Whole;
use jiff_core::civil::Date;
use std::marker::Model;

/// The number of 1800-01-01.
const FIRST_DAY: i64 = -62_091;

/// The number of 2199-12-31.
const LAST_DAY: i64 = 84_005;

/// A day of the Gregorian calendar from 1800-01-01 to 2199-12-31.
#[derive(Clone, Copy, Debug, PartialEq, Eq, PartialOrd, Ord, Hash)]
pub struct Day {
    number: i64,
}

impl Model for Day {
    ghost use Rattle.std.specs.Prelude.{ℤ};
    ghost use Rattle.fact_values.specs.Days.{IsDay};

    ghost Value = { ℤ };

    ghost view = { λ d. d.number };

    ghost invariant = { λ d. IsDay d.number };

    ghost inverse = { λ n. record { number = n } };
}

impl Day {
    /// The day with this date, or `None` where the calendar has no such date or it is out of the
    /// range. Months and days count from 1.
    pub fn new(year: i64, month: i64, day: i64) -> Option<Day>
        ensures accepted { IsSome result ↔ IsDateInRange year month day }
        ensures value { IfSome result (λ d. d ≡ number_of year month day) }
    {
        let date = calendar_date(year, month, day)?;
        Day::of_number(i64::from(date.to_unix_epoch_day()))
    }

    /// The day with this number, which is 0 for 1970-01-01, or `None` out of the range.
    pub fn of_number(n: i64) -> Option<Day>
        ensures accepted { IsSome result ↔ IsDay n }
        ensures value { IfSome result (λ d. d ≡ n) }
    {
        if is_day(n) {
            Some(Day { number: n })
        } else {
            None
        }
    }

    /// The number of days since 1970-01-01, negative before it.
    pub fn number(self) -> i64
        ensures value { result ≡ self }
        ensures in_range { IsDay result }
    {
        self.number
    }

    /// The year.
    pub fn year(self) -> i64
        ensures value { result ≡ year_of self }
        ensures date { (month day : ℤ) × IsDateOf self result month day }
    {
        i64::from(self.date().year)
    }

    /// The month, from 1 to 12.
    pub fn month(self) -> i64
        ensures { (year day : ℤ) × IsDateOf self year result day }
    {
        i64::from(self.date().month)
    }

    /// The day of the month, from 1.
    pub fn day(self) -> i64
        ensures { (year month : ℤ) × IsDateOf self year month result }
    {
        i64::from(self.date().day)
    }

    /// Its date.
    fn date(self) -> Date
        ensures { IsDateOf self result.year (pos result.month) (pos result.day) }
    {
        Date::from_unix_epoch_day(self.number).unwrap()
    }
}

/// The day so many days later, or earlier for a negative number.
pub fn add_days(day: Day, n: Whole) -> Result<Day, ValueFault>
    ensures day { result ≡ day_after day n }
    ensures overflow { IfErr result (λ fault. fault ≡ ValueFault.Overflow) }
{
    match Day::of_number(day.number() + n.get()) {
        Some(later) => Ok(later),
        None => Err(ValueFault::Overflow),
    }
}

/// Whether the number is that of a day in the range.
fn is_day(n: i64) -> bool
    ensures { result ≡ in_range n }
{
    FIRST_DAY <= n && n <= LAST_DAY
}

/// The date of the calendar, from the year -9999 to 9999, if there is one.
fn calendar_date(year: i64, month: i64, day: i64) -> Option<Date>
    ensures accepted { IsSome result ↔ IsDate year month day }
    ensures value { IfSome result (IsYmd year month day) }
{
    let year = i16::try_from(year).ok()?;
    let month = i8::try_from(month).ok()?;
    let day = i8::try_from(day).ok()?;
    Date::new(year, month, day).ok()
}
