//! Where the results of slots are kept, each with the number of the change that touched it last.
#![tactic(auto)]

mod cell;
mod globals;
pub mod laws;
mod number;
mod placed;
mod store;

pub use cell::{Cell, Displaced};
pub use store::Store;
