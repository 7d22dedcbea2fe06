// Capsules and records byte by byte, by the tables of the formats.
use std::alloc::{AllocError, Global};

/// How many bytes one command can transfer at most, and the disk of the run holds.
pub const TRANSFER: usize = 131_072;

/// The entry of a command on all 32 blocks of 4,096 bytes of namespace 1.
pub fn entry(opcode: u8, identifier: u8) -> [u8; 64] {
    let mut bytes = [0; 64];
    bytes[0] = opcode;
    bytes[1] = 0x40;
    bytes[2] = identifier;
    bytes[4] = 1;
    bytes[34] = 2;
    bytes[48] = 31;
    bytes
}

/// The record of a command that is held: no completion, no data.
pub fn held(place: u8, number: u8) -> [u8; 32] {
    let mut bytes = [0; 32];
    bytes[0] = place;
    bytes[4] = 1;
    bytes[8] = number;
    bytes
}

/// The record of a command that was executed well, up to its data: none, or a whole transfer.
pub fn executed(place: u8, number: u8, identifier: u8, has_data: bool) -> [u8; 32] {
    let mut bytes = [0; 32];
    bytes[0] = place;
    bytes[4] = 2;
    bytes[5] = 1;
    bytes[8] = number;
    bytes[14] = if has_data { 2 } else { 0 };
    bytes[26] = 1;
    bytes[28] = identifier;
    bytes
}

/// A queue file: a Write of a whole transfer and a Read of it.
pub fn capsules(alloc: Global, written: &[u8]) -> Result<Vec<u8>, AllocError> {
    let mut bytes = Vec::new(alloc);
    bytes.extend_from_slice(&entry(0x01, 7))?;
    bytes.extend_from_slice(written)?;
    bytes.extend_from_slice(&entry(0x02, 8))?;
    Ok(bytes)
}

/// The response file to it.
pub fn responses(alloc: Global, written: &[u8]) -> Result<Vec<u8>, AllocError> {
    let mut bytes = Vec::new(alloc);
    bytes.extend_from_slice(&held(0, 0))?;
    bytes.extend_from_slice(&executed(1, 0, 7, false))?;
    bytes.extend_from_slice(&held(2, 1))?;
    bytes.extend_from_slice(&executed(3, 1, 8, true))?;
    bytes.extend_from_slice(written)?;
    Ok(bytes)
}
