//! Watches of a session: whoever put one is told when the slot's result moves in a stated way. The relations are stored closures.
#![tactic(auto)]

mod commands;
mod relation;
mod relations;
mod table;
mod watches;

pub use commands::{WatchRefusal, unwatch, watch};
pub use relation::{Relation, Says, WatchTable};
pub use relations::{changed, completed, lost, raised};
pub use table::TableFault;
pub use watches::{PutFault, Watches};
