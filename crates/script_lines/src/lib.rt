//! Cuts the bytes of a script into lines, however they come, and reads each line as a command.
#![tactic(auto)]

mod behind_verb;
mod command;
mod cutting;
mod fault;
mod kind;
mod laws;
mod line_so_far;
mod lines;
mod parts;
mod pieces;
mod reading;
mod value;
mod verb;

pub use command::Command;
pub use cutting::cut_line;
pub use fault::LineFault;
pub use kind::Kind;
pub use laws::{a_line_says_one_thing, ended_lines_stand, lines_are_those_joined};
pub use lines::{Fed, Lines, Ready};
pub use pieces::lines_of_pieces;
pub use reading::command_of;
pub use value::ValueText;
