//! A dictionary as it is written: facts as trees, found by path, and the facts that their expressions name.
#![tactic(auto)]

mod constant;
mod dict_source;
mod expr;
mod fact_source;
mod finding;
mod lookup_table;
mod mentions;
mod operators;
mod path_index;
mod path_laws;
mod path_use;
mod read_fault;
mod targets;

pub use constant::Constant;
pub use dict_source::{DictSource, Unpushed};
pub use expr::{Case, Expr};
pub use fact_source::{Conditional, FactSource, LimitText, TypeText};
pub use lookup_table::{LookupTable, find_table};
pub use mentions::Mention;
pub use operators::{ManyOp, OneOp, PickOp, ReadOp, TwoOp};
pub use path_laws::{targets_are_none_elsewhere, targets_go_by_the_form, the_first_is_found};
pub use path_use::{PathUse, read_use};
pub use read_fault::ReadFault;
pub use targets::Targets;
