//! The answers that the text of a saved session gives: loaded, carried to another dictionary, or resumed.
#![tactic(auto)]

mod carried_text;
mod carrying;
mod dropped;
mod dropped_lines;
mod entering;
mod keeping;
pub mod laws;
mod loading;
mod opening;
mod own_lines;
mod reason;
mod resuming;

pub use carrying::{Carried, carry};
pub use dropped::put_dropped;
pub use loading::load;
pub use reason::{Dropped, Reason};
pub use resuming::{Resumed, resume};
pub use saved_text::{LoadFault, save};
