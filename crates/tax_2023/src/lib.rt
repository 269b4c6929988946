//! Filing status, dependents and the standard deduction of a year, as a dictionary that has the values of the written tables.
#![tactic(auto)]

mod laws;
mod reads;
mod rows;
mod source;
mod year;
mod years;

pub use laws::tables_of_years;
pub use source::year_source;
pub use year::{year_2023, year_2024, year_dictionary};
pub use years::{TaxYear, figures_from, year_named, year_under};
