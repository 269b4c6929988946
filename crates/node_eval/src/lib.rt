//! Compiled nodes, evaluated over cells.
#![tactic(auto)]

mod cells;
mod evaluating;
mod globals;
pub mod laws;
mod node;
mod node_position;
mod reads;

pub use cells::Cells;
pub use evaluating::eval;
pub use node::{Node, NodeCase, NodeRead, ResolvedPath};
