//! The types of nodes: of constants, paths and expressions, and the first node at fault.
#![tactic(auto)]

mod constants;
mod fact_typing;
mod inference;
mod node_fault;
mod node_laws;
mod operand_types;
mod read_types;
mod stated_types;
mod table_types;

pub use constants::{constant_value, fact_values};
pub use fact_typing::type_fact;
pub use node_fault::NodeFault;
pub use node_laws::{the_first_node_is_named, types_are_inferred, values_are_of_nodes};
pub use stated_types::{stated_type, type_at};
