//! How runs end: the faults that end them, the one line that each puts, and the writing of files.
//!
//! A run reads files, writes files and puts a text. `specs/Outsides.antt` says what of that the
//! outside tells: what names hold, how many calls have failed, what a sink took. A fault names its
//! file by number; its line is put without memory. The files that a run writes are one list in
//! order, and where a write fails the files before it are written whole and no later one is touched.
//! The texts and numbers are this project's own.
#![tactic(auto)]

mod faults;
mod law;
mod numbers;
mod putting;
mod report;
mod writing;

pub use faults::{At, Fault};
pub use law::plans_have_apart_names;
pub use numbers::{CONFIG, FileNo, JOURNAL, PLAN, SCRIPT, SINK, capsules_number, responses_number};
pub use putting::put_text;
pub use report::{put_line, put_usage, report_fault};
pub use writing::write_file;
