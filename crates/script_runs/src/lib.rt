//! Feeds a script to a session or a desk, piece by piece, and puts the replies to its lines.
#![tactic(auto)]

mod at_desk;
mod line_handler;
mod mode;
mod piece;
mod script;
mod silent;
mod status;
mod watched_session;

pub use line_handler::LineHandler;
pub use mode::Mode;
pub use script::run;
pub use silent::Silenced;
pub use status::Status;
pub use watched_session::WatchedSession;
