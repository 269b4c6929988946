//! The answers of an interview, and every edit of them with its inverse.
#![tactic(auto)]

mod answers;
mod edit;
mod entries;
pub mod laws;
mod listed;
mod lists;
mod members;
mod parts;
mod sides;

pub use answers::Answers;
pub use edit::{Edit, Gone, Side, Unapplied};
