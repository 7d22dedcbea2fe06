//! Tests alone: configurations in nvmetcli's JSON, read and written. The texts and the answers are
//! worked from the format, none of them comes from the program.
#![tactic(auto)]

#[cfg(test)]
mod rows;
#[cfg(test)]
mod tests;
