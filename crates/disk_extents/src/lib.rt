//! A disk in eight extents, so that commands on different parts of one disk share nothing.
//!
//! `split` makes the extents of a disk; `extents_touched` says which of them a job needs, and `do_part`
//! does a job's part on one of them. Laws say that each block lies in one extent, and that the
//! parts of a job on the extents that it touches, in rising order, are the job on the disk, which
//! `io_commands` defines.
#![tactic(auto)]

mod extents;
mod law;
mod parts;
#[cfg(test)]
mod tests;

pub use extents::{EXTENTS, Extent, extent_of, split};
pub use law::{edges_are_by_number, extents_are_the_disk, parts_are_the_job, touched_are_those};
pub use parts::{Touched, do_part, extents_touched, part_len};
