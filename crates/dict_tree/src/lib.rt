//! A dictionary's JSON form becomes trees, or the first of five faults.
#![tactic(auto)]

mod dict_json;
mod enums_json;
mod fault;
mod laws;
mod limits;
mod tables_json;

pub use dict_json::read;
pub use dict_source::{
    Case, Conditional, Constant, DictSource, Expr, FactSource, LimitText, LookupTable, ManyOp,
    Mention, OneOp, PathUse, PickOp, ReadOp, Targets, TwoOp, TypeText, Unpushed, read_use,
};
pub use fault::TreeFault;
pub use laws::{dictionaries_are_spelled, enums_are_spelled, tables_are_spelled};
