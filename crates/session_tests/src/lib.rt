//! The tests of what no run of the program shows of sessions: given answers over the plain engine, lists of commands, watches and
//! their relations by calls, and a desk over the incremental engine.
#![tactic(auto)]

#[cfg(test)]
mod begun;
#[cfg(test)]
mod desk_begun;
#[cfg(test)]
mod desk_tests;
#[cfg(test)]
mod fact_watch_tests;
#[cfg(test)]
mod given;
#[cfg(test)]
mod given_tests;
#[cfg(test)]
mod relation_tests;
#[cfg(test)]
mod run_tests;
