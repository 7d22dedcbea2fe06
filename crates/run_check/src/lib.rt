//! Finished runs, checked: the files that a run read and those that it left are read back, and the
//! run that they tell is judged against the one sequential target.
//!
//! First all that a run reads is read, with a run's own faults in a run's own order, then the
//! response file of each queue, then the journal. The records tell a run (`specs/Finished.antt`); it
//! is legal, or its first fault is named, both exactly, by the definitions of `run_verdicts`. One
//! target is made and changed in place; the records stay where they stand in their files; work is
//! linear in the records but for one sort of their places. No file is written. The texts, the limits
//! and the order of reading are this project's own.
#![tactic(auto)]

mod bounds;
mod check;
mod contents;
mod first_seats;
mod journal_file;
mod judging;
mod places;
mod records;
mod report;
mod response_files_read;
#[cfg(test)]
mod tests;

pub use check::{CheckFault, check_plan};
pub use contents::MAX_JOURNAL_BYTES;
pub use judging::judge_finished;
pub use records::{Records, read_records};
