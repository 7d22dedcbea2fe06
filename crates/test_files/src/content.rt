// Contents of files, of any length.
use std::alloc::{AllocError, Global};

/// Lengths at both sides of 64 KiB, and one of several pieces.
pub const LENGTHS: [usize; 6] = [0, 1, 65_535, 65_536, 65_537, 300_000];

/// So many bytes that don't come again after any power of two.
pub fn make_content(alloc: Global, len: usize) -> Result<Vec<u8>, AllocError> {
    let mut bytes = vec![in alloc; 0; len]?;
    for (at, byte) in bytes.iter_mut().enumerate() {
        *byte = (at % 251) as u8;
    }
    Ok(bytes)
}
