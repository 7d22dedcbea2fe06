//! The configuration as words of the running table, so that a command is looked up in a read
//! section exactly as a sequential target looks it up in its tree.
//!
//! `layout` gives each word its position; `opening` makes the words, the slots and the quotas that
//! a table is opened with; `rows` and `look` answer a `Look` from words that are loaded one by one;
//! `patches` gives the words that an edit is published with.
//! The laws say that no two words share a position, that what the words of a configuration answer
//! is what its tree, controllers, disks and stamps answer, and that an edit changes no word but
//! those of its patch. After the configuration that Linux nvmet keeps in drivers/nvme/target.
#![tactic(auto)]

pub mod law;
pub mod layout;
pub mod look;
pub mod opening;
pub mod patches;
pub mod rows;
pub mod shown;
