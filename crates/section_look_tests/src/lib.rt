//! Tests alone: random edits are published on a running table, and looks in its read sections are
//! compared with looks at the tree, and its words with those of a fresh opening.
#![tactic(auto)]

#[cfg(test)]
mod begun;
#[cfg(test)]
mod listed;
#[cfg(test)]
mod rolls;
#[cfg(test)]
mod section_tests;
#[cfg(test)]
mod served;
