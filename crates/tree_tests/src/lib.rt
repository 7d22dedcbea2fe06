//! Tests alone: what a folder has as it is made, and what each accepted edit changes and tells, as a
//! table of rows by the rules. The whole tree is looked at before and after each edit.
#![tactic(auto)]

#[cfg(test)]
mod edit_rows;
#[cfg(test)]
mod edits;
#[cfg(test)]
mod tests;
#[cfg(test)]
mod whole;
