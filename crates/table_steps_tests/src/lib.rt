//! Tests alone: the kinds of step of the running table, each once on its way, over the small
//! target.
#![tactic(auto)]

#[cfg(test)]
mod drain_tests;
#[cfg(test)]
mod execute_tests;
#[cfg(test)]
mod extents_tests;
#[cfg(test)]
mod gather_tests;
#[cfg(test)]
mod parts_tests;
#[cfg(test)]
mod section_tests;
#[cfg(test)]
mod turn_tests;
#[cfg(test)]
mod wide_tests;
