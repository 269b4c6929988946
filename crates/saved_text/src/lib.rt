//! The text of a saved session: written of answers, and read line by line, whatever the dictionary.
#![tactic(auto)]

mod carried_line;
mod carried_read;
mod carried_stage;
mod cursor;
mod entries;
mod entry_keys;
mod fault;
mod laws;
mod lists;
mod reading;
mod saving;
mod writing;

pub use carried_line::{EntryLine, ListLine, TextLine, members_of};
pub use carried_read::{CarriedRead, key_of};
pub use carried_stage::{CarriedStage, end_with, is_ended, read_carried};
pub use fault::LoadFault;
pub use laws::carried_texts_tell_their_lines;
pub use saving::save;
