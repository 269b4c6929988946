// Accepts the dictionary of each year.
ghost use Rattle.std.specs.Prelude.{◌≡◌, [], IfOk};
ghost use Rattle.dictionary.specs.AcceptedParts.{accepted};
ghost use Rattle.tax_2023.specs.Laws.{IsOfYear};
ghost use Rattle.tax_2023.specs.Years.{tables_of};
ghost use Rattle.tax_2023.specs.declared.years.TaxYear.TheVariants.{Year2023, Year2024};

use crate::source::year_source;
use crate::years::TaxYear;
use dictionary::{Dictionary, of_faultless_source};
use fact_values::NoMemory;
use std::alloc::Global;

/// The dictionary of the year, accepted with no checks. That it has no fault is proved, so none is answered.
pub fn year_dictionary(alloc: Global, year: TaxYear) -> Result<Dictionary, NoMemory>
    ensures of_year { IfOk result (λ d. IsOfYear (tables_of year) (accepted d)) }
    ensures checks { IfOk result (λ d. d.checks ≡ []) }
{
    let source = year_source(alloc, year)?;
    of_faultless_source(alloc, source)
}

/// That of 2023.
pub fn year_2023(alloc: Global) -> Result<Dictionary, NoMemory>
    ensures of_year { IfOk result (λ d. IsOfYear (tables_of Year2023) (accepted d)) }
    ensures checks { IfOk result (λ d. d.checks ≡ []) }
{
    year_dictionary(alloc, TaxYear::Year2023)
}

/// That of 2024.
pub fn year_2024(alloc: Global) -> Result<Dictionary, NoMemory>
    ensures of_year { IfOk result (λ d. IsOfYear (tables_of Year2024) (accepted d)) }
    ensures checks { IfOk result (λ d. d.checks ≡ []) }
{
    year_dictionary(alloc, TaxYear::Year2024)
}
