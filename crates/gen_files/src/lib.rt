//! The files of a generated plan: a large plan that is the same each time, for measurements and
//! stress.
//!
//! From a number of rounds and a name come seven files: a plan, its configuration as nvmetcli saves
//! it, a script that disables and enables a namespace eight times, the capsules of an admin queue
//! and those of three I/O queues. The texts, the entries and the drawn block addresses are this
//! project's own; entries are those of NVMe Base 2.0, 3.3.3, Connect and Property Set those of NVMe
//! over Fabrics 1.1. Each file's bytes are exactly its definition in `specs/`.
#![tactic(auto)]

mod commands;
mod entries;
mod made;
mod seed;
#[cfg(test)]
mod tests;
mod texts;

pub use commands::{admin_queue, io_queue};
pub use entries::{CHANGED_LIST, CONNECT_BYTES, ENABLING, EVENT_REQUEST, GET_LOG_PAGE, LOG_BYTES};
pub use made::{MadeFile, make_files, plan_name};
pub use seed::{MAX_BASE_NAME, MAX_ROUNDS, Seed};
pub use texts::{configuration_text, plan_text, script_text};
