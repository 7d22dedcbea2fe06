//! Generated plans: the seven files are written, and the summary of their run is put.
//!
//! The files are made in memory, and there they are read and served by one caller, as a run reads
//! and serves its own; then these same files are written, and the summary of that run is put. So the
//! plan that stands outside has the run that the summary tells of. What the files hold is said by
//! `gen_files`.
#![tactic(auto)]

mod summing;
mod whole;
mod writing;

pub use gen_files::{MAX_BASE_NAME, MAX_ROUNDS, Seed};
pub use whole::generate;
