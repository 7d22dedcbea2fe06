//! Submission entries and completions of NVMe, as bytes and as structs, and what commands ask of a configuration.
//!
//! Each entry has one table of fields (offset, size and name) in `specs/`: what is read of an entry's bytes and what is
//! written of an entry are both said by that table, and writing what was read gives the same bytes again. After NVMe
//! Base 2.0, 3.3.3 (queue entries), and NVMe over Fabrics 1.1 (the fabrics command's type).
//!
//! `Look` is all that the code of commands knows of a configuration: whether a controller is ready, what stands at an
//! NSID, the state of an ANA group, and when things changed. All calls on one look answer from one configuration, so one
//! proof of the commands serves each kind of look.
#![tactic(auto)]

mod codes;
mod connect;
mod controllers;
mod cqe;
mod law;
mod look;
mod one;
mod rows;
mod sqe;
#[cfg(test)]
mod tests;
mod way;

pub use codes::{
    ANA_INACCESSIBLE, ANA_PERSISTENT_LOSS, ANA_TRANSITION, COMMAND_SEQUENCE_ERROR, CONNECT,
    CONNECT_INCOMPATIBLE_FORMAT, CONNECT_INVALID_HOST, CONNECT_INVALID_PARAMETERS,
    DATA_SGL_LENGTH_INVALID, FABRICS, FLUSH, INTERNAL_PATH_ERROR, INVALID_FIELD, INVALID_NAMESPACE,
    INVALID_OPCODE, LBA_OUT_OF_RANGE, PROPERTY_GET, PROPERTY_SET, READ, SGL, SUCCESS, WRITE,
    WRITE_ZEROES,
};
pub use connect::{
    ConnectData, attributes, is_long_property, keep_alive, property_offset, property_value, qid,
    queue_size, read_connect, record_format,
};
pub use controllers::{Binding, Bound, ControllerRow, Controllers, Ctrl, put_text, ready};
pub use cqe::{Cqe, read_cqe, write_cqe};
pub use law::{connect_data_again, cqe_bytes_again, fabrics_fields_stand, sqe_bytes_again};
pub use look::Look;
pub use one::{OneLook, OneRow};
pub use rows::{Ana, MAX_NSID, NsRow, Offers, Seen, ana_text_again};
pub use sqe::{Sqe, data_len, direction, fctype, read_sqe, write_sqe};
pub use way::Direction;
