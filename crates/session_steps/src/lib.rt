//! The laws of what the commands of a session take and leave, over the incremental engine.
#![tactic(auto)]

pub mod laws;
