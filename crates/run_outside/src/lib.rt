//! The outside of the target as traits, with adapters over memory and over the real system.
//!
//! `Files`, `Sink` and `Gate` say what the outside may do: contents that are told or not, a count of faults that rises
//! wherever a fault is answered, and the last call on files. The adapters are proved against them; those over memory tell
//! what they hold and fail at the calls that a list names, those over the real system tell nothing, since no contract can.
#![tactic(auto)]

mod faults;
mod host;
mod memory;
mod outside;
mod pieces;
#[cfg(test)]
mod tests;

pub use faults::KeptCall;
pub use host::{HostFiles, HostSink};
pub use memory::{MemFiles, MemSink};
pub use outside::{FileError, Files, Gate, OpenGate, Point, Sink, SinkFault, WriteError};
pub use pieces::{read_content, write_pieces};
