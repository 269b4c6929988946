// Ages, and the days between two days.
ghost use Rattle.std.specs.Prelude.{◌≡◌, ◌-ℤ◌, Ok};
ghost use Rattle.fact_values.specs.Days.{day_after};
ghost use Rattle.law_arithmetic.specs.Ages.{IsAge, age_on, is_earlier_in_year as earlier_in_year};
ghost use Rattle.law_arithmetic.specs.Dates.{date_of as date};

use crate::civil_date::{CivilDate, date_of, whole};
use fact_values::{Day, Whole};

/// The days from the first day to the second, negative where that is earlier.
pub fn days_between(first: Day, second: Day) -> Whole
    ensures value { result ≡ second -ℤ first }
    ensures days { day_after first result ≡ Ok second }
{
    whole(second.number() - first.number())
}

/// The age on a day: the whole years that one who was born on the first day has completed on the
/// second, by month and day. One born on 29 February is a year older on 1 March where the year has
/// no 29th. Before birth it is the negative number of years begun: -1 in the year before it.
pub fn age_on(born: Day, day: Day) -> Whole
    ensures value { result ≡ age_on born day }
    ensures age { IsAge (date born) day result }
{
    let born = date_of(born);
    let date = date_of(day);
    let years = date.year - born.year;
    if is_earlier_in_year(date, born) {
        whole(years - 1)
    } else {
        whole(years)
    }
}

/// Whether a date's month and day come before another's in the year.
fn is_earlier_in_year(date: CivilDate, other: CivilDate) -> bool
    ensures { result ≡ earlier_in_year date other }
{
    date.month < other.month || (date.month == other.month && date.day < other.day)
}
