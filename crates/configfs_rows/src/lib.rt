//! The rows of the configuration tree, after the configfs tree of Linux nvmet
//! (drivers/nvme/target/configfs.c), and the ordered maps that keep them: NQNs, namespaces,
//! subsystems, ports with their ANA groups, disks with their holders, and what the texts of
//! attributes mean.
//!
//! Contracts see each map as a finite map from names or numbers to rows. What an edit makes of
//! the rows is decided above, in the tree.
#![tactic(auto)]

mod disks;
mod law;
mod limits;
mod linked_rows;
mod names;
mod namespaces;
mod nqn;
mod ordered_rows;
mod ports;
mod subsystems;
mod values;

pub use disks::{DiskRow, Disks, Holder};
pub use law::{group_names_again, lowest_is_free};
pub use limits::{
    MAX_ANA_GROUPS, MAX_CONTROLLERS, MAX_DISKS, MAX_HOSTS, MAX_PORTS, MAX_SUBSYSTEMS, MODEL_LEN,
    NQN_LEN, PATH_LEN, SERIAL_LEN, TRADDR_LEN, TRSVCID_LEN,
};
pub use names::Names;
pub use namespaces::{Identifier, NamespacePut, NamespaceRow, Namespaces, Phase};
pub use nqn::Nqn;
pub use ports::{Address, Groups, PortRow, Ports};
pub use sqe_cqe::MAX_NSID;
pub use subsystems::{SubsystemPut, SubsystemRow, Subsystems};
pub use values::{
    group_number, has_path, is_adrfam, is_treq, is_trtype, may_be_path, may_be_text, parse_uuid,
};
