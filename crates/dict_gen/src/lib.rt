//! A load that anyone can repeat: a dictionary of so many sums, one upon the other, and a script that answers, undoes and redoes.
#![tactic(auto)]

mod laws;
mod lines;
mod load;
mod script;
mod source;

pub use laws::{the_load_has_its_size, the_script_is_read_line_by_line};
pub use load::{Load, make};
