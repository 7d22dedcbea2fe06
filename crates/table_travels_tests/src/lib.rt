//! Tests alone: holds, lent places with their claims, finished entries, notes and whole seats that
//! travel between seats and threads of one running table, and own counters read out.
#![tactic(auto)]

#[cfg(test)]
mod counter_tests;
pub mod counters;
pub mod hold_moves;
pub mod moves;
#[cfg(test)]
mod place_tests;
