//! Tests alone: hosts that connect over whole runs, each record to the byte, and how the
//! configuration, a script of edits and CC decide about a Read.
#![tactic(auto)]

#[cfg(test)]
mod capsules;
#[cfg(test)]
mod connect_tests;
#[cfg(test)]
mod outcome;
#[cfg(test)]
mod records;
#[cfg(test)]
mod state_tests;
