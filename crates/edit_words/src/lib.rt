//! The words of the running table that each edit, fabrics command and end of a drain turns.
//!
//! `edit` makes an edit by the table of edits, notes its change, and gives exactly the words that
//! differ after it, each once. The laws say that what `ns_table` asks of an edit holds of every one
//! that the table of edits accepts: a namespace that is enabled keeps its disk, what stays keeps its
//! position, and what a change names is in the table. A fabrics command turns no word but the
//! readiness of its queue's controller, and the end of a drain none. After nvmet's configfs
//! (drivers/nvme/target/configfs.c), whose stores change the target in place.
#![tactic(auto)]

pub mod edits;
pub mod law;
pub mod turned;
