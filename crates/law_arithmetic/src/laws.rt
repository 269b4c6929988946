// What holds of the definitions at all numbers. Each function's contract is the theorem.
ghost use Rattle.law_arithmetic.specs.Laws.{DateIsOnly, MonthsLaterIsOnly, YearsLaterIsOnly, YearIsTwelveMonths, AgeIsOnly, RoundedUpIsOnly, RoundedDownIsOnly, RoundedNearestIsOnly, RoundIsToDollars};

/// A day has one date.
pub fn a_day_has_its_date()
    ensures { DateIsOnly }
{}

/// One date is so many months after a date, and one so many years; a year is twelve months.
pub fn one_date_is_later()
    ensures months { MonthsLaterIsOnly }
    ensures years { YearsLaterIsOnly }
    ensures twelve { YearIsTwelveMonths }
{}

/// A person has one age on a day.
pub fn one_age()
    ensures { AgeIsOnly }
{}

/// One multiple is the least above, one the greatest below, and one the nearest; to one dollar the
/// nearest is the amount that `round_dollar` gives.
pub fn one_multiple()
    ensures up { RoundedUpIsOnly }
    ensures down { RoundedDownIsOnly }
    ensures nearest { RoundedNearestIsOnly }
    ensures dollars { RoundIsToDollars }
{}
