//! What the facts of an accepted dictionary mean over answers.
#![tactic(auto)]

mod eval_position;
mod extension_laws;
mod feed_laws;
mod final_laws;
mod fit_laws;
mod home_laws;
mod plain_laws;
mod slot_laws;
mod steady_laws;
mod touched_laws;
mod typed_laws;
mod undone_laws;
mod weight_laws;

pub use eval_position::EvalPosition;
pub use extension_laws::extensions_are_tested;
pub use feed_laws::{feeding_slots_are_lower, slots_feed_by_mentions};
pub use final_laws::final_results_stay;
pub use fit_laws::{allowed_changes_fit, given_lists_fit, the_start_fits};
pub use home_laws::{homes_are_collections, slot_texts_spell_paths};
pub use plain_laws::{
    known_values_are_joined_by_rank, lower_facts_are_enough, plain_evaluation_is_recursive,
    standing_slots_have_results,
};
pub use slot_laws::listed_slots_stand;
pub use steady_laws::the_test_tells_steady;
pub use touched_laws::untouched_slots_keep_their_results;
pub use typed_laws::results_have_their_types;
pub use undone_laws::{
    undoing_tells_extensions, undoing_tells_what_differs, undoing_tells_what_is_touched_first,
};
pub use weight_laws::filters_weigh_by_their_members;
