//! The journal of a run: a text with one line for each call of the editor, in the order of places.
//!
//! It begins with `nvmet-journal 1` and `places N`; then comes `edit PLACE LINE ok`,
//! `edit PLACE LINE ERRNO` or `done PLACE LINE` for each call. PLACE counts from 0, LINE is the
//! number of the script's line from 1, ERRNO is the errno's name in Linux. The text is exact, and
//! what it can need of room is known before a run.
#![tactic(auto)]

mod lines;
#[cfg(test)]
mod tests;
mod writing;

pub use lines::{Answer, JournalLine};
pub use writing::{
    DONE_BYTES, EDIT_BYTES, HEAD_BYTES, are_within, journals_fit, put_journal, put_line, room,
};
