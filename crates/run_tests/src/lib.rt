//! Tests alone: whole runs over files in memory, each with its status, its line or summary, and
//! what it leaves of each file.
#![tactic(auto)]

#[cfg(test)]
mod answer_tests;
#[cfg(test)]
mod capsules;
#[cfg(test)]
mod limit_tests;
#[cfg(test)]
mod outcome;
#[cfg(test)]
mod script_tests;
#[cfg(test)]
mod simple_tests;
#[cfg(test)]
mod word_tests;
