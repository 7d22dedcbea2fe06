//! Split references on the running table: a namespace's reference counter, which gets and puts
//! touch on the seat's own counter alone while it is live, and on one shared count once it is
//! killed.
//!
//! Promises: a get in a section that shows the disk can't fail. A put answers `Last` exactly where
//! it brought the folded count to 0. `kill`, `fold` and `poll` drain a disk without waiting, and
//! each refusal names what this call loaded. No call takes memory. It follows the kernel's
//! lib/percpu-refcount.c as Linux nvmet uses it for namespaces.
#![tactic(auto)]

mod counting;
pub mod drains;
pub mod holds;
pub mod laws;
pub mod lives;
pub mod put_kinds;
pub mod references;
