//! Facts and expressions are read from JSON, exactly where a value spells them.
#![tactic(auto)]

mod expr_json;
mod fact_json;
mod fact_laws;
mod limits_json;
mod members;
mod node_name;
mod profile;
mod stated_json;
mod version;

pub use fact_json::read_fact;
pub use fact_laws::{expressions_are_spelled, facts_are_spelled, facts_are_well_formed};
pub use members::{has_no_other, may_be_text, text_under, two_texts_of};
pub use node_name::{OneName, op_of_name};
pub use profile::some_uses_law;
pub use stated_json::read_writable_type;
pub use version::{Version, version_named, version_text};
