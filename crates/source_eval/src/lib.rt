//! Expressions as they are written: their results over what is known, and the slots that are read.
#![tactic(auto)]

mod body;
mod context;
mod evaluating;
mod notes;
mod reads;

pub use body::eval_body;
pub use context::EvalContext;
pub use evaluating::eval;
pub use notes::{Notes, Unnoted};
