//! The concurrency core of the target, to be run step by step: read sections over two sides of
//! words, references that split into one counter per seat and fold back, and turns of extents.
//!
//! Promises: `step` leaves and answers exactly what the one step relation says, and `allowed` is
//! true exactly where it allows the step. That every allowed step keeps the core sound is a law of
//! the crate below (`laws`). It follows the kernel's RCU read sections and its percpu reference
//! counter (lib/percpu-refcount.c).
#![tactic(auto)]

pub mod concurrency;
mod opening;
mod parts;
mod references;
mod sections;
mod turns;

pub use concurrency::{Core, Memory, allowed, step};
pub use ref_state::kinds::{Answer, Kind, Tag, Take};
pub use ref_state::state::State;
pub use ref_state::{kinds as kinds, laws as laws, limits as limits, state as state};
