//! The arithmetic of laws: days by their months and years, ages, rounding to multiples, and tables of amounts.
#![tactic(auto)]

mod age;
mod bisection;
mod civil_date;
mod increment;
pub mod laws;
mod months;
mod multiples;
mod table;

pub use age::{age_on, days_between};
pub use civil_date::{CivilDate, date_of, day_of, month_of};
pub use increment::Increment;
pub use months::{add_months, add_years};
pub use multiples::{round_down, round_nearest, round_up};
pub use table::{Row, Table, key_of};
