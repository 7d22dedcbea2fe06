//! Read-side critical sections on the running table, and the spare side of the configuration's
//! words: `rcu_read_lock`, `rcu_read_unlock` and a `synchronize_rcu` that never waits.
//!
//! Promises: a section reads the words of the one configuration that stands at its place. The
//! editor gets the spare side only once every section that could read it was left, and else the
//! seat whose section it still found open, with the word that it loaded. No call waits or takes
//! memory. It follows the kernel's RCU as Linux nvmet uses it in drivers/nvme/target/core.c.
#![tactic(auto)]

pub mod editor;
pub mod grace_periods;
pub mod laws;
pub mod sections;
pub mod sides;
