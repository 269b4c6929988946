//! Lemmas that several crates need, on what every crate speaks of: tests, options, lists, bytes and numbers. It has
//! proofs alone; what the standard library already has isn't said again.
#![tactic(auto)]
