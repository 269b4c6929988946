//! The slots that wait to be evaluated, those of the lowest rank first.
#![tactic(auto)]

mod dirty_queue;
mod dirty_slot;
mod member_bits;
mod place_bits;
mod places;
mod unplaced;

pub use dirty_queue::DirtyQueue;
pub use dirty_slot::DirtySlot;
pub use places::Places;
