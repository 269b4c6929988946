//! The texts of values: what is read, and what is printed.
#![tactic(auto)]

mod boolean;
mod day;
mod digits;
mod dollar;
mod enum_lists;
pub mod laws;
mod line;
mod members;
mod rational;
mod value;
mod whole;

pub use dollar::{print_dollar, read_dollar};
pub use enum_lists::{EnumLists, ListFault};
pub use line::Line;
pub use value::{TextFault, print, read};
