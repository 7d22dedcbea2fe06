//! What the concurrency core is, and what always holds of it: its state as plain data, the 24 kinds
//! of atomic step, and the invariant that every allowed step keeps.
//!
//! Promises: whatever seats there are and whatever allowed steps they take, the core stays sound
//! (`laws`). The layer above runs the one step relation of `specs/Steps.antt`. It follows the
//! kernel's RCU read sections and its percpu reference counter (lib/percpu-refcount.c).
#![tactic(auto)]

pub mod kinds;
pub mod laws;
pub mod limits;
pub mod state;
