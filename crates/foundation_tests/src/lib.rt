//! The tests of the lowest crates, which are themselves proved without tests.
#![tactic(auto)]

#[cfg(test)]
mod cell_store_tests;
#[cfg(test)]
mod fact_paths_tests;
#[cfg(test)]
mod fact_values_tests;
#[cfg(test)]
mod fg_io_tests;
#[cfg(test)]
mod script_lines_tests;
#[cfg(test)]
mod session_undo_tests;
#[cfg(test)]
mod steps_tests;
#[cfg(test)]
mod text_checks_tests;
#[cfg(test)]
mod three_state_tests;
#[cfg(test)]
mod value_text_tests;
