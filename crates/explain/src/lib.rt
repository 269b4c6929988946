//! Why a result is what it is: the slots that its evaluation reads, and which of all that lie behind it aren't answered.
#![tactic(auto)]

mod context;
mod found;
mod laws;
mod listing;
mod missing_answers;
mod reading;
mod slots;
mod walk;

pub use laws::{missing_answers_keep_the_result, reads_are_recursive};
pub use missing_answers::missing;
pub use reading::reads;
