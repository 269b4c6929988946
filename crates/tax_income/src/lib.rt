//! The rate schedule and the child tax credit of a year, as a dictionary behind that of the year that has the values of the written
//! tables.
#![tactic(auto)]

mod figures;
mod income;
mod laws;
mod reads;
mod rows;
mod source;

pub use income::income_dictionary;
pub use laws::tables_of_incomes;
