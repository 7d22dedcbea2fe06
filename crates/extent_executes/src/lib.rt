//! Executes of held commands on the running table, over any number of extents.
//!
//! Promises: an Execute is placed with every extent that its command touches in hand, and each is
//! put back as the command leaves it; or a turn was found taken, by a word that this call loaded,
//! and all is at home as it was. No call waits or takes memory.
#![tactic(auto)]

pub mod executes;
pub mod works;
