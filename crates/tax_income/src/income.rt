// Accepts the dictionary of each year with the rate schedule and the child tax credit.
ghost use Rattle.std.specs.Prelude.{◌≡◌, [], IfOk};
ghost use Rattle.dictionary.specs.AcceptedParts.{accepted};
ghost use Rattle.tax_income.specs.Laws.{IsOfIncome};
ghost use Rattle.tax_income.specs.Years.{income_of};

use crate::source::income_source;
use dictionary::{Dictionary, of_faultless_source};
use fact_values::NoMemory;
use std::alloc::Global;
use tax_2023::TaxYear;

/// The dictionary of the year with the rate schedule and the child tax credit, accepted with no checks. That it has no fault is
/// proved, so none is answered.
pub fn income_dictionary(alloc: Global, year: TaxYear) -> Result<Dictionary, NoMemory>
    ensures of_income { IfOk result (λ d. IsOfIncome (income_of year) (accepted d)) }
    ensures checks { IfOk result (λ d. d.checks ≡ []) }
{
    let source = income_source(alloc, year)?;
    of_faultless_source(alloc, source)
}
