//! The tests of nodes, of what they are compiled from and of readers: nodes over hand-made cells, those of small
//! dictionaries, and those of the tax years, fact by fact.
#![tactic(auto)]

#[cfg(test)]
mod dictionaries;
#[cfg(test)]
mod node_compile_tests;
#[cfg(test)]
mod node_eval_tests;
#[cfg(test)]
mod node_texts;
#[cfg(test)]
mod reader_tests;
#[cfg(test)]
mod tax_year_tests;
