//! Fabrics commands on the queues of a target: Connect, Property Get and Property Set.
//!
//! A queue starts unconnected. Connect binds an admin queue to a new controller of a subsystem that
//! its port links, and an I/O queue to a controller that its host has there. Properties of an admin
//! queue's controller enable it, disable it and shut it down. Which check refuses a command, with
//! which status and result, is one table in order (`specs/Checks.antt`); what an accepted one leaves
//! and tells stands in `specs/After.antt`. After NVMe over Fabrics 1.1, 3.3, 3.5 and 3.6, and Linux
//! nvmet (drivers/nvme/target/fabrics-cmd.c, core.c).
#![tactic(auto)]

mod actions;
mod answer;
mod connect;
mod law;
mod names;
mod properties;
mod registers;

pub use actions::control;
pub use answer::{Answer, Control, Fault};
pub use connect::{
    CNTLID_IN_DATA, CONNECT_LEN, HOSTNQN_IN_DATA, MAX_QID, MAX_QUEUE_SIZE, NEW_CONTROLLER,
    QID_IN_ENTRY, SQSIZE_IN_ENTRY, SUBNQN_IN_DATA,
};
pub use law::{connects_just_this_qid, kept_names_the_same, ready_after_set, served_by_name};
pub use registers::{CAPABILITIES, OFFSET_CAP, OFFSET_CC, OFFSET_CSTS, OFFSET_VS, VERSION};
