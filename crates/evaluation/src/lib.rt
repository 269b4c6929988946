//! The meaning of an expression, once for sources and for compiled nodes.
#![tactic(auto)]

pub mod laws;
