//! The commands of a connected admin queue over a look at a configuration: Get Log Page, Identify,
//! Abort, Set Features, Get Features, Asynchronous Event Request and Keep Alive; and its polls.
//!
//! Which check fails first, what a command gets, and what it leaves of the controller's events is
//! one definition (`specs/Admin.antt`). Data are written once, behind what a buffer holds, and
//! nothing takes memory. After NVMe Base 2.0, 5, and Linux nvmet (drivers/nvme/target/admin-cmd.c).
#![tactic(auto)]

mod admit;
mod checks;
mod states;

pub use admit::{AdminReply, admit_admin, poll_admin};
pub use checks::{ABORT, EVENT_REQUEST, GET_LOG_PAGE, IDENTIFY, KEEP_ALIVE};
pub use states::EventStates;
