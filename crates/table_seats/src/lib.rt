//! A small table with three seats, and what tests do on it in several steps: a submit, an Execute, a
//! put, a drain, an edit, a hold handed over.
#![tactic(auto)]

pub mod executes;
pub mod ground;
pub mod lives;
pub mod meaning;
pub mod parts;
pub mod publishing;
pub mod sections;
