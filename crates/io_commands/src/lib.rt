//! The commands of I/O queues: Flush, Write, Read and Write Zeroes, over a look at a configuration.
//!
//! `admit_io` decides whether a command is held or refused, by all checks in their order, whatever kind of look it is
//! given; `do_io` does the job of a held command on its disk. Neither has another refusal, and neither takes memory. After
//! the I/O path of Linux nvmet (core.c, io-cmd-bdev.c), the NVM Command Set 1.0, and NVMe Base 2.0 for the states of ANA
//! groups.
#![tactic(auto)]

mod admit;
mod jobs;
mod law;
#[cfg(test)]
mod tests;

pub use admit::admit_io;
pub use jobs::{Admit, Job, do_io, given_len};
pub use law::admitted_is_on_a_seen_disk;
