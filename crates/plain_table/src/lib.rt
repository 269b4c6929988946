//! The whole table of results, computed anew after each change, in order of rank.
#![tactic(auto)]

mod plain_table;
mod slots;
mod table;
mod table_context;

pub use plain_table::PlainTable;
