//! Fetches the dictionary and the saved text of an interview, and puts what it ends with: one line, the answers saved, or a summary.
#![tactic(auto)]

mod checking;
mod counting;
mod ending;
mod fault_line;
mod fetching;
mod load_run;
mod obtaining;
mod origin;
mod resuming;
mod saving;
mod summary;

pub use checking::check;
pub use ending::{end_by, end_by_fault, end_by_refused_line};
pub use fetching::Fetched;
pub use load_run::run_load;
pub use obtaining::obtain;
pub use origin::{Beginning, Origin};
pub use resuming::{Dropped, Ready, Resumed, put_front, resume};
pub use saving::save_over;
