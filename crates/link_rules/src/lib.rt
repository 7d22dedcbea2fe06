//! Links of the configuration tree, after configfs of Linux nvmet (drivers/nvme/target/configfs.c):
//! the hosts that a subsystem allows, and the subsystems that a port links; the whole table of
//! edits, of folders and of links; and the edits that a script's lines say.
//!
//! `apply` is the table, as `specs/Table.antt` states it over the tree's own table of folders. A
//! refused edit and want of memory leave the tree as it was. `read_edit` reads one line exactly:
//! what is read is spelled so, and what is spelled so is read.
#![tactic(auto)]

mod allowed_hosts;
mod edits;
mod found;
mod laws;
mod lines;
mod linked_subsystems;
mod paths;
mod table;
#[cfg(test)]
mod test_rows;
#[cfg(test)]
mod tests;
mod words;

pub use configfs_tree::{admits_host, serves};
pub use edits::{Edit, LinkEdit};
pub use laws::lines_spell_edits;
pub use lines::read_edit;
pub use table::apply;
