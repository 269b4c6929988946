//! Names, and the texts that name facts, uses of facts, and slots.
#![tactic(auto)]

mod cut;
mod fact_path;
mod fault;
mod laws;
mod name;
mod slot_path;
mod use_path;

pub use fact_path::{FactPath, read_fact_path};
pub use fault::PathFault;
pub use laws::{fact_paths_have_one_text, slot_paths_have_one_text, use_paths_have_one_text};
pub use name::Name;
pub use slot_path::{SlotPath, read_member_number, read_slot_path};
pub use use_path::{UsePath, read_use_path};
