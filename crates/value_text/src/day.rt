// The texts of days.
ghost use Rattle.std.specs.Prelude.{◌≡◌, ◌+◌, ◌<◌, ◌≤◌, ◌++◌, length, pos};
ghost use Rattle.value_text.specs.Dates.{date_in, day_at, day_of_date, is_date_text as date_text, printed_date, printed_day};

use crate::digits::read_digits;
use crate::line::Line;
use fact_values::Day;

// Ten bytes with their dashes.
fn is_date_text(text: &[u8]) -> bool
    ensures { result ≡ date_text text.now }
{
    if text.len() != 10 {
        return false;
    }
    text[4] == b'-' && text[7] == b'-'
}

// The day with this date.
fn day_of(year: u64, month: u64, day: u64) -> Option<Day>
    requires year { year < 10000 }
    requires month { month < 100 }
    requires day { day < 100 }
    ensures { result ≡ day_of_date year month day }
{
    Day::new(year as i64, month as i64, day as i64)
}

// The day whose date stands in ten bytes.
fn read_date(text: &[u8]) -> Option<Day>
    requires { length text.now ≡ 10 }
    ensures { result ≡ date_in text.now }
{
    let year = read_digits(4, 4, &text[..4])?;
    let month = read_digits(2, 2, &text[5..7])?;
    let day = read_digits(2, 2, &text[8..10])?;
    day_of(year, month, day)
}

/// The day that a text spells.
pub(crate) fn read_day(text: &str) -> Option<Day>
    ensures { result ≡ day_at text.now }
{
    let bytes = text.as_bytes();
    if !is_date_text(bytes) {
        return None;
    }
    read_date(bytes)
}

// The digit of a number below 10.
fn digit(n: u64) -> u8
    requires { n < 10 }
    ensures { result ≡ 48 + n }
{
    b'0' + n as u8
}

// Appends a date of ten bytes.
fn print_date(year: u64, month: u64, day: u64, out: &mut Line)
    requires { length out.old + 10 ≤ 1100 }
    ensures appended { out.new ≡ out.old ++ printed_date year month day }
    ensures short { length out.new ≡ length out.old + 10 }
{
    out.push(&[
        digit(year / 1000 % 10),
        digit(year / 100 % 10),
        digit(year / 10 % 10),
        digit(year % 10),
        b'-',
        digit(month / 10 % 10),
        digit(month % 10),
        b'-',
        digit(day / 10 % 10),
        digit(day % 10),
    ]);
}

/// Appends a day, as `2024-02-29`.
pub(crate) fn print_day(day: Day, out: &mut Line)
    requires { length out.old + 10 ≤ 1100 }
    ensures appended { out.new ≡ out.old ++ printed_day day }
    ensures short { length out.new ≡ length out.old + 10 }
{
    print_date(
        day.year().unsigned_abs(),
        day.month().unsigned_abs(),
        day.day().unsigned_abs(),
        out,
    );
}
