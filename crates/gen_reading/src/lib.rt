//! Laws alone, with nothing to run: a generated plan, its script and its queue files are read without a
//! fault, as the lines and the capsules that they are made of.
#![tactic(auto)]

mod law;

pub use law::{plans_are_read, queue_files_are_read, scripts_are_read};
