//! Runs as data: what each caller of a target did, with places, and what is printed of it.
//!
//! A run has a plan, a start, the files of its callers, and for each caller the list of its entries
//! with their places. It is *ordered* where the places are those of one history, and *served* where
//! each entry is the call that its caller makes next (`specs/Turns.antt`), and at last none is left.
//! The response files, the journal and the summary are prints of it. Whoever runs a target or judges
//! a finished run speaks by these definitions. They are this project's own; the records that they
//! print are those of `run_records` and `journal_text`.
#![tactic(auto)]

mod capsule_files;
mod scripts;

pub use capsule_files::CapsuleFile;
pub use scripts::ScriptEdit;
