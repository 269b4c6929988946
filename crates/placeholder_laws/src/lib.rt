//! Which results of a session no further answer can change.
#![tactic(auto)]

mod final_result;

pub use final_result::is_final;
