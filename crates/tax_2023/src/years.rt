// The years: of each its word, and the amounts and days of its tables, a figure a line.
ghost use Rattle.std.specs.Prelude.{◌≡◌, IfOk, map};
ghost use Rattle.fact_json.specs.Names.{under_name};
ghost use Rattle.written_facts.specs.Figures.{figures_view};
ghost use Rattle.tax_2023.specs.Figures.{figures};
ghost use Rattle.tax_2023.specs.Years.{tables_of, written_for, year_of_word};

use fact_values::NoMemory;
use std::alloc::Global;
use written_facts::Figure;

/// A year that has tables.
#[derive(Clone, Copy)]
pub enum TaxYear {
    Year2023,
    Year2024,
}

/// The years by their words.
pub const YEARS: [(&str, TaxYear); 2] = [("2023", TaxYear::Year2023), ("2024", TaxYear::Year2024)];

/// Publication 501 for 2023 returns.
pub const FIGURES_2023: [(&str, &str); 11] = [
    ("basic, single or separately", "13850.00"),
    ("basic, jointly or surviving spouse", "27700.00"),
    ("basic, head of household", "20800.00"),
    ("box, unmarried", "1850.00"),
    ("box, others", "1500.00"),
    ("claimed, at least", "1250.00"),
    ("claimed, above earned income", "400.00"),
    ("gross income below", "4700.00"),
    ("65, born before", "1959-01-02"),
    ("under 19, born after", "2004-12-31"),
    ("under 24, born after", "1999-12-31"),
];

/// Publication 501 for 2024 returns.
pub const FIGURES_2024: [(&str, &str); 11] = [
    ("basic, single or separately", "14600.00"),
    ("basic, jointly or surviving spouse", "29200.00"),
    ("basic, head of household", "21900.00"),
    ("box, unmarried", "1950.00"),
    ("box, others", "1550.00"),
    ("claimed, at least", "1300.00"),
    ("claimed, above earned income", "450.00"),
    ("gross income below", "5050.00"),
    ("65, born before", "1960-01-02"),
    ("under 19, born after", "2005-12-31"),
    ("under 24, born after", "2000-12-31"),
];

// The figures of the year, by their names.
fn lines_of(year: TaxYear) -> &'static [(&'static str, &'static str)]
    ensures { map (λ f. (f.0.now, f.1.now)) result.now ≡ (written_for year).1 }
{
    match year {
        TaxYear::Year2023 => &FIGURES_2023,
        TaxYear::Year2024 => &FIGURES_2024,
    }
}

/// The year of this word among these.
pub fn year_under(years: &[(&str, TaxYear)], word: &str) -> Option<TaxYear>
    ensures { result ≡ under_name word.now (map (λ y. (y.0.now, y.1)) years.now) }
{
    for (name, year) in years {
        if word == *name {
            return Some(*year);
        }
    }
    None
}

/// The year of this word, as `2023`.
pub fn year_named(word: &str) -> Option<TaxYear>
    ensures { result ≡ year_of_word word.now }
{
    year_under(&YEARS, word)
}

/// Lines of a name and a text, as figures.
pub fn figures_from(
    alloc: Global,
    lines: &[(&'static str, &'static str)],
) -> Result<Vec<Figure<'static>>, NoMemory>
    ensures { IfOk result (λ fs. figures_view fs.items ≡ map (λ f. (f.0.now, f.1.now)) lines.now) }
{
    let mut figures = Vec::new(alloc);
    for (name, text) in lines {
        figures.push(Figure { name, text })?;
    }
    Ok(figures)
}

/// The figures of the year's tables.
pub fn figures_of(alloc: Global, year: TaxYear) -> Result<Vec<Figure<'static>>, NoMemory>
    ensures { IfOk result (λ fs. figures_view fs.items ≡ figures (tables_of year)) }
{
    figures_from(alloc, lines_of(year))
}
