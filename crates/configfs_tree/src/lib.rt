//! The configuration tree of the target, after the configfs tree of Linux nvmet
//! (drivers/nvme/target/configfs.c): hosts, subsystems with their namespaces, ports with
//! their ANA groups, and the disks that namespaces hold.
//!
//! Each edit of a folder is decided by one table of errnos, which `specs/Table.antt` states:
//! a call answers the first row whose condition holds and leaves the tree as it was, or it
//! makes the edit and tells what changed. Contracts see hosts, subsystems, namespaces, ports
//! and groups as finite maps, and the standing facts of `specs/Standing.antt` are kept by
//! every call.
#![tactic(auto)]

mod apply;
mod configuration;
mod edits;
mod host_edits;
mod laws;
mod links;
mod namespace_edits;
mod port_edits;
mod subsystem_edits;
#[cfg(test)]
mod test_rows;
#[cfg(test)]
mod tests;
mod tree;

pub use configfs_rows::{
    Address, DiskRow, Disks, Groups, Holder, Identifier, MAX_ANA_GROUPS, MAX_CONTROLLERS,
    MAX_DISKS, MAX_HOSTS, MAX_NSID, MAX_PORTS, MAX_SUBSYSTEMS, MODEL_LEN, NQN_LEN, Names,
    NamespaceRow, Namespaces, Nqn, PATH_LEN, Phase, PortRow, Ports, SERIAL_LEN, SubsystemRow,
    Subsystems, TRADDR_LEN, TRSVCID_LEN,
};
pub use configuration::{Attached, Configuration, Settings, may_be_disks};
pub use edits::{Attr, Change, Errno, Folder, FolderEdit, Refused, Touched};
pub use laws::{held_means_another, live_holds_disk, port_positions, subsystem_positions};
pub use links::{admits_host, serves};
pub use tree::Tree;
