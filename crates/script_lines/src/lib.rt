//! Edit scripts, cut into numbered lines of words.
//!
//! A script is a text with one edit a line, in the words of the paths under nvmet's configfs. This crate says which of its
//! lines can be read at all, and what their words are; which words are an edit is for the layer above. The reader is
//! exact: it gives the lines, or the first one that can't be read, or the limit on lines.
#![tactic(auto)]

mod lines;
#[cfg(test)]
mod tests;
mod words;

pub use lines::{Line, LineError, MAX_LINE_BYTES, MAX_LINES, read_lines};
