//! The dictionaries that come with the program and the library: the tax years.
#![tactic(auto)]

mod built_in;

pub use built_in::{BuiltIn, bring, named, program_income_named};
