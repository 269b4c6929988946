//! The nodes that are visited where slots are evaluated: of one slot, of those that a change touches, and of all.
#![tactic(auto)]

pub mod laws;
