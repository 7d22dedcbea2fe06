//! A whole run by one caller, served on a target.
//!
//! First come the fronts of the files, the fabrics commands that they begin with, file after file;
//! then the edits of the script, each drain ended at once; then the rest of each file; and at last
//! the polls of each connected admin queue until there is no event. Every call has its place in one
//! order. What was served is said by the definitions of `run_transcript`: there is a run whose
//! lists are ordered, serve each capsule and each edit once, are a legal history of the sequential
//! target, and of which records, journal and counts are the print. After Linux nvmet (core.c,
//! fabrics-cmd.c, admin-cmd.c).
#![tactic(auto)]

mod calls;
mod editing;
mod files;
mod output;
mod rounds;
mod whole;

pub use output::Output;
pub use whole::{Served, serve};
