//! The configuration that a run of a plan starts with, shown in nvmetcli's JSON.
//!
//! `show_plan` reads a plan and its configuration alone, with the faults of a run in a run's order,
//! and puts the text that `save` of nvmetcli writes of the tree that the run starts with, and a line
//! end. It writes no file. `nvmetcli restore` reads that text.
#![tactic(auto)]

mod show;

pub use show::show_plan;
