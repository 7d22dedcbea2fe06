//! Response records: what a queue answered to its calls, as bytes.
//!
//! A record is a head of 32 bytes, written field after field, and the data for the host behind it. The completion in a head
//! is that of NVMe Base 2.0, 3.3.3.2.
#![tactic(auto)]

mod records;
#[cfg(test)]
mod tests;

pub use records::{Answer, HEAD_BYTES, Head, Kind, head_fields_fill, put_record, write_head};
