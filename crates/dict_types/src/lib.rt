//! The types of a dictionary's facts and nodes, and what refuses a dictionary for its paths, types or limits.
#![tactic(auto)]

mod bad_limit;
mod checking;
mod laws;
mod limit;
mod typed;

pub use checking::check;
pub use dict_rules::TypeFault;
pub use laws::{the_fault_is_first, the_test_says_the_rule_of_limits, typed_is_well_typed};
pub use limit::Limit;
pub use typed::Typed;
