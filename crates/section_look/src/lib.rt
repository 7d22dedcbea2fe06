//! A look at the configuration from a read section, and the admission of an I/O command there.
//!
//! Promises: a look over a placed section answers what the sequential target's look at its tree
//! answers at the section's place, whatever is published meanwhile; its calls load words and take
//! no other step. A command is looked up, admitted and held in one section, by at most 21 steps,
//! whatever the configuration holds and however long the history is. No call waits or takes memory.
//! After `nvmet_req_init` and `nvmet_req_find_ns` of Linux nvmet, drivers/nvme/target/core.c.
#![tactic(auto)]

pub mod admission;
mod loading;
pub mod look;
pub mod submitted;
