//! The expressions of a dictionary's facts become nodes, once for all changes of the answers.
#![tactic(auto)]

mod compiled;
mod expression;
mod fact;
pub mod laws;
mod operands;
mod reading;

pub use compiled::{Compiled, compile};
