//! Tests alone: plans generated over files in memory. The files are compared with ones that are made
//! from the format field by field, the summaries with numbers worked out from a number of rounds.
#![tactic(auto)]

#[cfg(test)]
mod failing_tests;
#[cfg(test)]
mod generated;
#[cfg(test)]
mod numbers;
#[cfg(test)]
mod wanted;
#[cfg(test)]
mod whole_tests;
