//! The files of a run: plans and capsule files.
//!
//! They are read exactly: what the file spells, or its first fault with its place, both directions proved. The room and the
//! number of records that the responses to a capsule file can need are known before any of it is served. Entries are those
//! of NVMe Base 2.0, 3.3.3; a namespace's disk is named by a path as in nvmet's configfs. Response records are handed on
//! from `run_records`, and the traits of the outside, through which files are read and written, from `run_outside`.
#![tactic(auto)]

mod capsules;
mod items;
pub mod law;
mod limits;
mod line_items;
mod plan;
#[cfg(test)]
mod tests;

pub use capsules::{
    Capsule, CapsuleError, MAX_CAPSULES, MAX_OUTPUT, SizedCapsules, quota, read_capsules,
    read_sized_capsules, room,
};
pub use items::{Item, Plan, QueueLine};
pub use limits::What;
pub use line_items::{MAX_NAME, is_name};
pub use plan::{MAX_ALL_DISK_BYTES, MAX_DISKS, MAX_QUEUES, PlanError, read_plan};
pub use run_outside::{
    FileError, Files, Gate, HostFiles, HostSink, KeptCall, MemFiles, MemSink, OpenGate, Point,
    Sink, SinkFault, WriteError, read_content, write_pieces,
};
pub use run_records::{Answer, HEAD_BYTES, Head, Kind, head_fields_fill, put_record, write_head};
