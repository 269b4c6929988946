//! Who reads a fact: the facts that mention it.
#![tactic(auto)]

mod index;
pub mod laws;
mod readers_of;

pub use index::{Readers, build};
pub use readers_of::ReaderOf;
