//! The facts of a dictionary as constants of the program, of which one function makes a source.
#![tactic(auto)]

mod building;
mod figure;
mod form;
mod naming;
mod pushing;
mod stating;
mod written_fact;

pub use building::build;
pub use figure::{Figure, text_of};
pub use form::{Fixed, Form, When};
pub use naming::add_options;
pub use pushing::push_facts;
pub use written_fact::{Kind, WrittenFact};
