//! What the editor learns of a grace period.

/// A section may still read: that of this seat, whose section word was just found to be this odd
/// one, as it was noted.
#[derive(Clone, Copy, PartialEq, Eq, Debug)]
pub struct Reading {
    pub seat: u32,
    pub count: u64,
}

/// The spare side, which no section reads, until the next publish.
#[derive(Drop)]
pub struct Spare {
    /// The serial that stands.
    pub serial: u32,
}
