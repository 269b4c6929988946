//! Prints a dictionary from its tree: as the JSON that spells it, and its facts as lines.
#![tactic(auto)]

mod enum_value;
mod expr_value;
mod fact_lines;
mod fact_value;
pub mod laws;
mod limit_value;
mod node_value;
mod printing;
mod stated;
mod table_value;
mod word;

pub use fact_lines::print_facts;
pub use printing::print;
