//! What a finished run is: right, or wrong at one place and in one field first.
//!
//! The callers of a run tell what they did, each call with its place. Such a run is *right* where
//! the places are 0 to n - 1, each once, at each of them stands what its caller does next there and
//! what the sequential target makes of it, and at last no caller has a call left. Otherwise it has one
//! first fault, by its place and its field. Each condition is local to its place. The laws tie both
//! to the runs of `run_transcript`: a run is right exactly where it is ordered, served and legal.
#![tactic(auto)]

mod law;
mod verdict;

pub use law::{
    right_runs_are_transcripts, right_runs_have_no_fault, runs_have_one_fault,
    transcripts_are_right,
};
pub use verdict::{Field, Verdict};
