//! The rule of the running table: what its words, slots and seats show between any two steps, what
//! each step tells its seat, and the meaning of calls that it is said of.
//!
//! Promises: the words show a sound core, taken from the laws of `ref_state` and proved nowhere
//! again, and the places on the clock are one legal history of the target that the meaning starts
//! with. That each kind of step keeps this is proved here, and used by the calls of the crate
//! above. `laws` says how the words lie apart; `ticks` counts steps by their kind.
#![tactic(auto)]

pub mod laws;
pub mod meaning;
pub mod rule;
pub mod ticks;
