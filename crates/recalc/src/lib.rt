//! The incremental engine: it goes from answers to answers and evaluates the touched slots alone.
#![tactic(auto)]

mod changing;
mod dependency_graph;
mod engine_cells;
mod engine_state;
mod evaluating;
mod forgetting;
mod global_places;
pub mod laws;
mod live_cells;
mod log;
mod marking;
mod placed_readers;
mod propagation;
mod recalc;
mod running;
mod seeding;
mod start_cells;
mod turn;
mod undone;
mod update;

pub use recalc::Recalc;
