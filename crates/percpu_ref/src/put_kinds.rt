//! What a put answers.

/// Whether a hold was the last of its disk's life.
#[derive(Clone, Copy, PartialEq, Eq, Debug)]
pub enum Put {
    /// Other holds may stand, or the reference isn't folded.
    Kept,
    /// Its step brought the folded count to 0.
    Last,
}
