//! A running table of words whose edits are patches: each puts some words in place, and no others.
//!
//! Promises: between two edits the side that is shown has the words of the target, and the other
//! side lacks the last patch alone, so that the next edit stores that patch and its own. It is what
//! tests stand on: any words with any patches make such a table. No command is held on it, and its
//! extents hold nothing.
#![tactic(auto)]

pub mod meaning;
pub mod opened;
pub mod publishing;
