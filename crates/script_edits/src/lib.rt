//! Edit scripts, read whole.
//!
//! A script says one edit a line, in the words of the paths under nvmet's configfs. The reader is
//! exact, in one pass: it gives the edits with the numbers of their lines, or the first line that
//! isn't passed over and is no printable line of an edit, or the limit on lines.
#![tactic(auto)]

mod reading;
#[cfg(test)]
mod tests;

pub use reading::read_script;
