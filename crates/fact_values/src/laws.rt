// What holds of the definitions at all numbers. Each function's contract is the theorem.
ghost use Rattle.fact_values.specs.DayLaws.{DateIsOnly, RangeIsOfYears, YearIsOfDate};
ghost use Rattle.fact_values.specs.RatioLaws.{EqualRationalsAreOne, GcdIsGreatest, LowestHasDenominator, LowestIsEqual, LowestIsLowest};
ghost use Rattle.fact_values.specs.RoundingLaws.{RoundsToNearest};

/// A fraction has one nearest whole number, at a tie the one farther from zero, and rounding gives it.
pub fn rounding_is_nearest()
    ensures { RoundsToNearest }
{}

/// Euclid's algorithm finds the greatest common divisor of any two numbers.
pub fn gcd_is_greatest()
    ensures { GcdIsGreatest }
{}

/// The lowest terms of a fraction are equal to it, and have no divisor in common but 1.
pub fn lowest_terms()
    ensures equal { LowestIsEqual }
    ensures denominator { LowestHasDenominator }
    ensures lowest { LowestIsLowest }
{}

/// Two fractions in lowest terms that are equal have the same terms.
pub fn equal_rationals_are_one()
    ensures { EqualRationalsAreOne }
{}

/// The range of days is the same by number and by year.
pub fn range_is_of_years()
    ensures { RangeIsOfYears }
{}

/// A day has at most one date, whose year is the day's.
pub fn a_day_has_one_date()
    ensures only { DateIsOnly }
    ensures year { YearIsOfDate }
{}
