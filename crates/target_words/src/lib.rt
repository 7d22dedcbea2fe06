//! The words of the target's configuration, as readers of the running table find them.
//!
//! The laws say which calls leave the words (all but published ones), that the editor's calls leave
//! those words that the editor computes from what it knows, that a command is held on a disk whose
//! word isn't 0, and that a table is opened with the words and the extents of the start. No code
//! runs here. After what a reader of Linux nvmet sees under RCU (core.c, configfs.c).
#![tactic(auto)]

pub mod law;
