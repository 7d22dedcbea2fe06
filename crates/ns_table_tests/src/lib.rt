//! Tests of the configuration's words: they stand at the positions that the layout gives them, and
//! a look at them answers as a look at the tree does.
#![tactic(auto)]

#[cfg(test)]
mod made;
#[cfg(test)]
mod tests;
