//! The rules of paths and checks, and the first fact that breaks one.
#![tactic(auto)]

mod bad_path;
mod duplicate_path;
mod fault;
mod no_collection;
mod rule_laws;
mod rules;
mod unknown_check;
mod unknown_path;
mod use_op;
mod uses;
mod wrong_place;

pub use fault::TypeFault;
pub use rule_laws::{tests_say_the_rules, the_first_is_least};
pub use rules::{Rule, first_fault};
pub use unknown_check::find_check;
