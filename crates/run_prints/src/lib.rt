//! A run of what was read, served by one caller, and what is printed of it: the records of each queue,
//! the journal and the summary. Nothing is written or put here.
#![tactic(auto)]

mod journal;
mod serve;
mod summary;
mod totals;

pub use journal::journal_of;
pub use serve::{Printed, serve_inputs};
pub use summary::summary_text;
pub use totals::{Totals, totals_of};
