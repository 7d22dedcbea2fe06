//! Identify on a connected admin queue: the pages of a controller (CNS 01h), a namespace (00h), the
//! active namespaces (02h) and the descriptors of a namespace (03h), over a look at a configuration.
//!
//! Each page of fixed fields is one table in `specs/`: offset, size and value. All that a table
//! doesn't name is zero. A page is written over zeros, in place, and takes no memory. The names in
//! capitals are those of NVMe Base 2.0, Identify Controller data structure, and of the NVM Command Set
//! 1.0, Identify Namespace data structure.
#![tactic(auto)]

mod controller;
mod descriptors;
mod identify;
mod law;
mod lists;
mod namespace;

pub use controller::{
    ANACAP, ANATT, CMIC, CNTRLTYPE, CQES, FR, IOCCSZ, IORCSZ, KAS, LPA, MAXCMD, MDTS, OAES, SGLS,
    SQES, VER,
};
pub use descriptors::{NIDT_CSI, NIDT_NGUID, NIDT_UUID};
pub use identify::{
    CNS_ACTIVE_LIST, CNS_CONTROLLER, CNS_DESCRIPTORS, CNS_NAMESPACE, check_identify, write_identify,
};
pub use law::fields_stand_apart;
pub use namespace::NMIC;
