//! Several parties at one session: an edit is refused where another party's change touched the slot since its party last looked
//! at it, and so are `undo` and `redo` over another party's change.
#![tactic(auto)]

mod desk;
mod last_seen;
pub mod laws;
mod parties;
mod refusal;

pub use desk::Desk;
pub use refusal::DeskRefusal;
