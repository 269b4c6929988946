//! The tests of what no run of the program shows of the crates that print, judge and order a dictionary, and of the operations of
//! its nodes.
#![tactic(auto)]

#[cfg(test)]
mod accepting_tests;
#[cfg(test)]
mod checks;
#[cfg(test)]
mod dict_order_tests;
#[cfg(test)]
mod dict_print_tests;
#[cfg(test)]
mod dict_types_tests;
#[cfg(test)]
mod operations_tests;
