//! Checks of texts by code, and a table of checks that its owner makes.
#![tactic(auto)]

mod check;
mod checks;
pub mod laws;
mod table;

pub use check::{Check, CheckTable, Test};
pub use checks::{digits, nine_digits, printable_ascii, trimmed};
pub use table::TableFault;
