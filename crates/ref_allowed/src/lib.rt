//! Where a step of the concurrency core is allowed, decided over its state, and which hold a step
//! takes.
//!
//! Promises: `may_take_step` is true exactly where the one step relation allows the step. The tests
//! of the topics are one file each: sections, the two sides, references, drains, parts, turns.
#![tactic(auto)]

pub mod allowance;
pub mod counts;
mod drain_conditions;
pub mod entries;
pub mod holds;
mod part_conditions;
mod reference_conditions;
mod section_conditions;
mod side_conditions;
mod turn_conditions;
