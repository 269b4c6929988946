//! What each node does with the results of its operands. Only a copy of a borrowed result, or of a table's text, takes memory.
#![tactic(auto)]

mod accumulator;
mod cases;
mod fields;
mod filter;
mod gathered;
pub mod laws;
mod many_operands;
mod number_run;
mod numbers;
mod one_operand;
mod reads;
mod sum;
mod two_operands;
mod values;
mod verdict;

pub use cases::{CaseStep, case_step, found, taken};
pub use fields::{CountFold, SumFold};
pub use filter::FilterFold;
pub use many_operands::ManyFold;
pub use number_run::NumberRun;
pub use one_operand::one;
pub use reads::{ItemStep, complete_test, item_step, members, size};
pub use two_operands::two;
pub use verdict::{is_true, source_verdict};
