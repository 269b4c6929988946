//! A dictionary is accepted, or refused for its first fault; and what the facts of an accepted one mean over answers.
#![tactic(auto)]

mod accepting;
mod by_rank;
mod dictionary;
mod engine;
mod fault;
mod faultless;
mod given;
mod homes;
mod kept_check;
mod laws;
mod precomputed;
mod sizes;
mod slot_members;
mod slot_text;
mod steady;

pub use accepting::{accept, of_source};
pub use dictionary::Dictionary;
pub use engine::FactEngine;
pub use fault::DictFault;
pub use faultless::of_faultless_source;
pub use given::given_result;
pub use laws::{mentions_come_first, the_dictionary_is_one, the_fault_is_one};
pub use slot_members::members_of_home;
