//! A table of two disks and two words of configuration, which every edit changes together, and
//! what tests do on it by the calls of read sections and split references.
#![tactic(auto)]

pub mod edits;
pub mod ground;
pub mod meaning;
pub mod readers;
