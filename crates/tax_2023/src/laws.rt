// Laws of the dictionary of each year: to a household that answers all questions, and whose incomes are modest, it gives what the
// written tables give. Each function's contract is a law.
ghost use Rattle.tax_2023.specs.Laws.{HouseholdAnswers, HouseholdIsThere, StatusesAreNamed, TablesHold};
ghost use Rattle.tax_2023.specs.Years.{tables_of};
ghost use Rattle.tax_2023.specs.declared.years.TaxYear.{TaxYear};

/// For every household of a year that answers all questions, and whose incomes are modest, plain evaluation gives what the
/// written tables of Publication 501 give. Answers to all questions that fit the dictionary are those of a household, there is such
/// a household, and the filing statuses have their names.
pub fn tables_of_years()
    ensures tables { (y : TaxYear) → TablesHold (tables_of y) }
    ensures households { (y : TaxYear) → HouseholdIsThere (tables_of y) }
    ensures answered { (y : TaxYear) → HouseholdAnswers (tables_of y) }
    ensures names { (y : TaxYear) → StatusesAreNamed (tables_of y) }
{}
