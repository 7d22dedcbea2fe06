//! The serials of last changes, kept beside a configuration tree: how many changes were published,
//! and at which of them each namespace, and the ANA groups of each subsystem and each port, changed
//! last.
//!
//! They are all that logs and notices ask of the past, so that no history is kept. A change that an
//! accepted edit tells raises the serial and stamps what it names; nothing else is done for it.
#![tactic(auto)]

mod stamps;

pub use stamps::ChangeStamps;
