//! The stages of a reference's life after its disk was killed, each a value that has to be spent.

/// A killed reference.
pub struct Killed {
    /// The disk.
    pub disk: u32,
    /// By seat its section word as it was found right after the kill.
    pub words: [u64; 32],
}

/// A folded reference: its shared count is the number of holds.
pub struct Folded {
    /// The disk.
    pub disk: u32,
}

/// What a look at a folded reference answers.
pub enum Polled {
    /// No hold stands, and none will in this life.
    Drained,
    /// So many holds stand, as this call loaded, which is above 0.
    Draining(Folded, u64),
}
