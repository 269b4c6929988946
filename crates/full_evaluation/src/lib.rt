//! Full evaluation: the results of all slots, fact by fact in the order of the ranks, in whatever keeps them.
#![tactic(auto)]

mod filling;
mod result_table;

pub use filling::fill;
pub use result_table::ResultTable;
