//! Answers the lines of a script over a session: the texts of replies, and the watches that fire.
#![tactic(auto)]

mod answering;
mod at_once;
mod changing;
mod command;
mod firing;
mod laws;
mod listing;
mod mark;
mod numbered;
mod progress;
mod question;
mod reading;
mod reply;
mod tables;
mod watching;
mod writing;

pub use answering::answer_ready;
pub use laws::{final_lines_stay, undo_restores};
pub use listing::answer_missing;
pub use mark::PartyMark;
pub use numbered::print_numbered;
pub use progress::Progress;
pub use reading::answer_reads;
pub use reply::{print_refusal, print_reply};
pub use tables::{Tables, add_check, add_relation};
pub use writing::{write_ended, write_line, write_reply};
