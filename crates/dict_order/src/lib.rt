//! Ranks of facts, and the first fact that reaches itself.
#![tactic(auto)]

mod fault;
mod graph;
pub mod laws;
mod mention_graph;
mod ordering;
mod ranks;
mod walk;

pub use fault::OrderFault;
pub use graph::mentions_facts;
pub use ordering::{order, order_graph};
