// The ends of the bands and a day of each year, a figure a line.
ghost use Rattle.std.specs.Prelude.{◌≡◌, IfOk, map};
ghost use Rattle.written_facts.specs.Figures.{figures_view};
ghost use Rattle.tax_income.specs.Figures.{income_figures};
ghost use Rattle.tax_income.specs.Years.{ends_for, income_of};

use fact_values::NoMemory;
use std::alloc::Global;
use tax_2023::{TaxYear, figures_from};
use written_facts::Figure;

/// The tax rate schedules of the instructions of Form 1040 for 2023, and the last birth day of somebody who is 17 at its end.
pub const FIGURES_2023: [(&str, &str); 25] = [
    ("10 percent, couple", "22000.00"),
    ("10 percent, head of household", "15700.00"),
    ("10 percent, separately", "11000.00"),
    ("10 percent, single", "11000.00"),
    ("12 percent, couple", "89450.00"),
    ("12 percent, head of household", "59850.00"),
    ("12 percent, separately", "44725.00"),
    ("12 percent, single", "44725.00"),
    ("22 percent, couple", "190750.00"),
    ("22 percent, head of household", "95350.00"),
    ("22 percent, separately", "95375.00"),
    ("22 percent, single", "95375.00"),
    ("24 percent, couple", "364200.00"),
    ("24 percent, head of household", "182100.00"),
    ("24 percent, separately", "182100.00"),
    ("24 percent, single", "182100.00"),
    ("32 percent, couple", "462500.00"),
    ("32 percent, head of household", "231250.00"),
    ("32 percent, separately", "231250.00"),
    ("32 percent, single", "231250.00"),
    ("35 percent, couple", "693750.00"),
    ("35 percent, head of household", "578100.00"),
    ("35 percent, separately", "346875.00"),
    ("35 percent, single", "578125.00"),
    ("under 17, born after", "2006-12-31"),
];

/// The same for 2024, after Revenue Procedure 2023-34.
pub const FIGURES_2024: [(&str, &str); 25] = [
    ("10 percent, couple", "23200.00"),
    ("10 percent, head of household", "16550.00"),
    ("10 percent, separately", "11600.00"),
    ("10 percent, single", "11600.00"),
    ("12 percent, couple", "94300.00"),
    ("12 percent, head of household", "63100.00"),
    ("12 percent, separately", "47150.00"),
    ("12 percent, single", "47150.00"),
    ("22 percent, couple", "201050.00"),
    ("22 percent, head of household", "100500.00"),
    ("22 percent, separately", "100525.00"),
    ("22 percent, single", "100525.00"),
    ("24 percent, couple", "383900.00"),
    ("24 percent, head of household", "191950.00"),
    ("24 percent, separately", "191950.00"),
    ("24 percent, single", "191950.00"),
    ("32 percent, couple", "487450.00"),
    ("32 percent, head of household", "243700.00"),
    ("32 percent, separately", "243725.00"),
    ("32 percent, single", "243725.00"),
    ("35 percent, couple", "731200.00"),
    ("35 percent, head of household", "609350.00"),
    ("35 percent, separately", "365600.00"),
    ("35 percent, single", "609350.00"),
    ("under 17, born after", "2007-12-31"),
];

// The figures of the year, by their names.
fn lines_of(year: TaxYear) -> &'static [(&'static str, &'static str)]
    ensures { map (λ f. (f.0.now, f.1.now)) result.now ≡ ends_for year }
{
    match year {
        TaxYear::Year2023 => &FIGURES_2023,
        TaxYear::Year2024 => &FIGURES_2024,
    }
}

/// The figures of the income of the year.
pub fn figures_of(alloc: Global, year: TaxYear) -> Result<Vec<Figure<'static>>, NoMemory>
    ensures { IfOk result (λ fs. figures_view fs.items ≡ income_figures (income_of year)) }
{
    figures_from(alloc, lines_of(year))
}
