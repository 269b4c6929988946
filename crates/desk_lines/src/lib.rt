//! Answers the lines of a script over a desk: each line is a party's, and so is each line of its reply.
#![tactic(auto)]

mod answering;
mod command;
mod laws;
mod mark;
mod party_line;
mod reply;
mod writing;

pub use answering::answer_ready;
pub use laws::{a_line_is_of_one_party, what_is_printed_as_final_stays};
pub use party_line::PartyLine;
