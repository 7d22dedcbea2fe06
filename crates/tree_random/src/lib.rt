//! Tests alone: random steps of the configuration tree, each made in a plain slow tree too, which
//! scans lists and shares no code with the tree. The whole trees are compared after each step.
#![tactic(auto)]

#[cfg(test)]
mod random_tests;
#[cfg(test)]
mod rolls;
#[cfg(test)]
mod slow;
#[cfg(test)]
mod whole;
