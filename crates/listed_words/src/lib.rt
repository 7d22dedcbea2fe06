//! A configuration with its words in a list, which each edit patches with the words that it turned.
//!
//! Promises: whatever edits are made and whatever drains end, the listed words are those of the
//! tree, its controllers, its disks and the stamps of its changes.
#![tactic(auto)]

pub mod configured;
