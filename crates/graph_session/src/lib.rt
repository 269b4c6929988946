//! A session over an engine: every command, with undo and redo.
#![tactic(auto)]

mod changes;
mod judging;
mod kinds;
mod laws;
mod limits;
mod moves;
mod naming;
mod permits;
mod questions;
mod reply;
mod running;
mod session;

pub use judging::{judge_value, read_value};
pub use kinds::{is_answered, is_list, is_overridden};
pub use laws::commands_lead_to_answers_that_fit;
pub use naming::find_slot;
pub use reply::{Refusal, Reply};
pub use running::{is_want_of_memory, run};
pub use session::Session;
