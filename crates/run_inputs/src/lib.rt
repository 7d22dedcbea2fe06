//! All that a run reads, in one order, with its first fault.
//!
//! First the plan, then the configuration or the simple plan's own start, then the script, then the
//! capsule file of each queue. What is read is what the files' bytes give; where it can't be, the
//! answer is the first bad place, passed limit or refused edit in this order, or a read that
//! failed. The order and the limits are this project's own; the files are those of `plan_files`,
//! `nvmetcli_json` and `script_edits`.
#![tactic(auto)]

mod configuration_file;
mod contents;
mod inputs;
mod law;
mod names;
mod plan_file;
mod queue_files;
mod script_file;
#[cfg(test)]
mod tests;

pub use configuration_file::{Start, read_start};
pub use contents::{MAX_CONFIGURATION_BYTES, MAX_PLAN_BYTES, MAX_QUEUE_BYTES, MAX_SCRIPT_BYTES};
pub use inputs::{Inputs, PlanInputs, read_inputs, read_plan_inputs};
pub use law::told_files_settle;
pub use names::file_name;
pub use plan_file::read_plan_file;
pub use queue_files::{MAX_ALL_INPUT, MAX_ALL_OUTPUT, read_queue_files};
pub use script_file::read_script_file;
