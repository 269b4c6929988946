//! The values of facts, and their exact arithmetic.
#![tactic(auto)]

mod day;
mod dollar;
mod fact_type;
mod fault;
pub mod laws;
mod members;
mod memory;
mod num;
mod range;
mod rational;
mod rounding;
mod slot;
mod text;
mod total;
mod value;
mod whole;

pub use day::{Day, add_days};
pub use dollar::Dollar;
pub use fact_type::FactType;
pub use fault::ValueFault;
pub use members::Members;
pub use memory::NoMemory;
pub use num::{Num, divide, multiply};
pub use range::is_in_range;
pub use rational::{Rational, add_rational, subtract_rational};
pub use rounding::round_dollar;
pub use slot::Slot;
pub use text::Text;
pub use total::Total;
pub use value::{Value, compare, same};
pub use whole::Whole;
