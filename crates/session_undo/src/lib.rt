//! Undo and redo, by the inverse of each edit.
#![tactic(auto)]

mod direction;
mod history;
pub mod laws;
mod refusal;

pub use direction::Direction;
pub use history::History;
pub use refusal::UndoRefusal;
