//! The commands of the program: a plan run, a finished run checked, a plan's start shown, a plan
//! generated.
#![tactic(auto)]

mod commands;
mod run;
mod status;
mod top;
mod writing;

pub use command_words::{Words, WordsError, read_words};
pub use commands::plain;
pub use run::run_plan;
pub use run_verdicts::Field;
pub use status::Status;
pub use top::command;
