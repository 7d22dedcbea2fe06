//! The log page Asymmetric Namespace Access (0Ch) of a controller: the ANA groups of its port with
//! their states, and the enabled namespaces of its subsystem in each (NVMe Base 2.0, Get Log Page).
//!
//! The page is a function of what a look shows. It is written in place, from any offset on, and takes
//! no memory: one walk over the NSIDs finds the members of all groups, and each of them is then written
//! by going along its chain.
#![tactic(auto)]

mod groups;
mod members;
mod page;

pub use members::GROUPS;
pub use page::ana_page;
