//! Two looks at one configuration, compared in all that they answer: what stands at each NSID, group
//! and controller, the pages of Identify and the logs over it, and the admissions of I/O commands.
//!
//! Each comparison names the first place at which the looks differ. It leaves what stands behind
//! both, and takes no memory.
#![tactic(auto)]

pub mod admissions;
pub mod answers;
pub mod difference;
pub mod pages;
