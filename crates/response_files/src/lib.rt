//! The files that a finished run leaves, read back: the response files of its queues, and the journal
//! of its editor.
//!
//! Both are read exactly: what the file spells, or its first fault with its place, both directions
//! proved over the definitions by which runs print them. A completion in a record is that of NVMe
//! Base 2.0, 3.3.3.2.
#![tactic(auto)]

mod journal;
mod journal_lines;
mod law;
mod responses;
#[cfg(test)]
mod tests;

pub use journal::{Journal, JournalError, read_journal};
pub use law::malformed_bytes_begin_no_record;
pub use responses::{Record, RecordError, read_responses};
