//! A counter of steps that takes no bytes, for contracts that bound how much work is done.
#![tactic(auto)]

mod counter;

pub use counter::Steps;
