// Laws of the dictionary with the rate schedule and the child tax credit: to a household that answers all questions, and whose
// incomes are modest, it gives what the written tables give. Each function's contract is a law.
ghost use Rattle.tax_2023.specs.declared.years.TaxYear.{TaxYear};
ghost use Rattle.tax_income.specs.Laws.{HouseholdAnswers, HouseholdIsThere, IncomeTablesHold, ThousandsAreLeast};
ghost use Rattle.tax_income.specs.Years.{income_of};

/// For every household of a year that answers all questions, and whose incomes are modest, plain evaluation gives what the written
/// tables of the rate schedule and of the child tax credit give, and what those of the year give. Answers to all questions that
/// fit the dictionary are those of a household, and there is such a household. The thousands by which the credit is reduced are the
/// fewest that cover the excess.
pub fn tables_of_incomes()
    ensures tables { (y : TaxYear) → IncomeTablesHold (income_of y) }
    ensures households { (y : TaxYear) → HouseholdIsThere (income_of y) }
    ensures answered { (y : TaxYear) → HouseholdAnswers (income_of y) }
    ensures thousands { ThousandsAreLeast }
{}
