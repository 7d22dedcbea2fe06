//! Tests alone: finished runs, whole and damaged, each with the status and the line of its check. It
//! offers the finished run of a plan with two queues and a script, worked by hand from the formats
//! and from the rules of the target, its damages, and the check over files in memory.
#![tactic(auto)]

mod answer;
mod capsules;
mod damages;
#[cfg(test)]
mod field_tests;
mod finished;
mod journal;
#[cfg(test)]
mod journal_tests;
#[cfg(test)]
mod limit_tests;
#[cfg(test)]
mod order_tests;
#[cfg(test)]
mod place_tests;
mod records;
#[cfg(test)]
mod rows;
#[cfg(test)]
mod simple_tests;

pub use answer::{Answer, check_files, check_in};
pub use capsules::{Capsule, queue_file};
pub use damages::{Damage, Part, Shift};
pub use finished::{ADMIN_CAPSULES, Finished, IO_CAPSULES, SCRIPT};
pub use journal::{Line, Says};
pub use records::{
    ANSWERED, CONTROL, Completion, EXECUTE, HELD, NO_EVENT, POLL, Record, SUBMIT, WAITING,
};
