//! The Fact Graph for C: sessions and desks over dictionaries, which are fed lines and hand out replies.
#![tactic(auto)]

ghost use Rattle.std.specs.Prelude.{◌≡◌};

mod answering;
mod bringing;
mod consulting;
mod desk_answering;
mod desk_engine;
mod desk_exports;
mod desk_handle;
mod desk_opening;
mod desk_saving;
mod desk_slot;
mod dropped_lines;
mod engine;
mod exports;
mod fault;
mod handle;
mod loose;
mod opening;
mod outcome;
mod printing;
mod reading;
mod resuming;
mod saving;
mod session_slot;
mod start;
mod starting;
mod text;
