// The dictionaries that come along, found by their words.
ghost use Rattle.std.specs.Prelude.{◌≡◌, [], false, IfOk, option_copied};
ghost use Rattle.fact_paths.specs.Cuts.{after};
ghost use Rattle.dictionary.specs.AcceptedParts.{accepted};
ghost use Rattle.dictionary.specs.Checks.{has_check};
ghost use Rattle.built_in.specs.BuiltIns.{IsBrought, built_in_of, program_income_of};

use dictionary::Dictionary;
use fact_values::NoMemory;
use std::alloc::Global;
use tax_2023::{TaxYear, year_dictionary, year_named, year_under};
use tax_income::income_dictionary;

/// A dictionary that comes with the program and the library.
#[derive(Clone, Copy)]
pub enum BuiltIn {
    /// Filing status, dependents and standard deduction of a year.
    Year(TaxYear),
    /// What there is of the year, and the rate schedule and the child tax credit behind it.
    Income(TaxYear),
}

/// The years whose income the program has words for. That of the others is there for hosts alone.
pub const PROGRAM_INCOMES: [(&str, TaxYear); 1] = [("2023", TaxYear::Year2023)];

/// The year of this word, where the program has words for its income.
pub fn program_income_named(word: &str) -> Option<TaxYear>
    ensures { result ≡ program_income_of word.now }
{
    year_under(&PROGRAM_INCOMES, word)
}

// The text behind this front, where it begins with it.
fn behind<'a>(text: &'a str, front: &str) -> Option<&'a str>
    ensures { option_copied result ≡ after front.now text.now }
{
    text.strip_prefix(front)
}

/// The dictionary of these words: `year` or `income`, and the word of a year, as `year 2023`.
pub fn named(words: &str) -> Option<BuiltIn>
    ensures { result ≡ built_in_of words.now }
{
    if let Some(word) = behind(words, "year ") {
        return Some(BuiltIn::Year(year_named(word)?));
    }
    let word = behind(words, "income ")?;
    Some(BuiltIn::Income(year_named(word)?))
}

/// The dictionary. It has no fault, and names no check.
pub fn bring(alloc: Global, built_in: BuiltIn) -> Result<Dictionary, NoMemory>
    ensures accepted { IfOk result (λ d. IsBrought built_in (accepted d) × (d.checks ≡ [])) }
    ensures no_check { IfOk result (λ d. has_check (accepted d).tree ≡ false) }
{
    match built_in {
        BuiltIn::Year(year) => year_dictionary(alloc, year),
        BuiltIn::Income(year) => income_dictionary(alloc, year),
    }
}
