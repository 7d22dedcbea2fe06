//! Served runs, read as a storage engineer reads them: each queue serves its capsules one after
//! another, and the editor its script line after line.
//!
//! `run_transcript` says that a run is *served* by what each caller does next, which is what a check
//! of a finished run can follow. Here stands the reading that follows from it for every ordered run:
//! a fabrics command is one Control; any other command is its Submit, then its Execute exactly where
//! it was held, then one Poll exactly where its queue was an admin queue at that submit; behind its
//! file an admin queue polls to the first poll without an event; an edit is followed by the end of
//! its drain exactly where it began one. The definitions and the law are this project's own.
#![tactic(auto)]

mod laws;

pub use laws::served_runs_are_read;
