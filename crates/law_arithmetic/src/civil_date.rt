// Dates of the calendar, and the date of a day.
ghost use Rattle.std.specs.Prelude.{◌≡◌, ◌<◌, ◌^◌, pos, unsigned_abs};
ghost use Rattle.law_arithmetic.specs.Dates.{HasDate, date_of as date, day_of as day_number, month_of as month_number};

use fact_values::{Day, Whole};
use jiff_core::civil::Date;

/// A date of the Gregorian calendar. Months and days count from 1.
#[derive(Clone, Copy)]
pub struct CivilDate {
    pub year: i64,
    pub month: u8,
    pub day: u8,
}

/// The month of a day, from 1 to 12.
pub fn month_of(day: Day) -> Whole
    ensures { result ≡ pos (month_number day) }
{
    whole(i64::from(date_of(day).month))
}

/// The day of the month, from 1 to 31.
pub fn day_of(day: Day) -> Whole
    ensures { result ≡ pos (day_number day) }
{
    whole(i64::from(date_of(day).day))
}

/// The date of a day.
pub fn date_of(day: Day) -> CivilDate
    ensures value { result ≡ date day }
    ensures dated { HasDate day result }
{
    let Date { year, month, day } = Date::from_unix_epoch_day(day.number()).unwrap();
    CivilDate {
        year: i64::from(year),
        month,
        day,
    }
}

/// A small number as a value.
pub(crate) fn whole(n: i64) -> Whole
    requires { unsigned_abs n < 10 ^ 6 }
    ensures { result ≡ n }
{
    Whole::new(n).unwrap()
}
