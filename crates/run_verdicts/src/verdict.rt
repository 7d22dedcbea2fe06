/// What differs first at a place of a finished run, in the order in which it is looked at.
#[derive(Clone, Copy, Debug, PartialEq, Eq)]
pub enum Field {
    /// The place is missing, is doubled, or isn't below the number of places.
    Place,
    /// What stands there isn't what its caller does next there.
    Order,
    /// Held, answered, waiting or no event.
    Answer,
    /// The completion.
    Completion,
    /// The data for the host.
    Bytes,
    /// Whether an edit was made, or with which errno it was refused.
    Errno,
    /// A drain ends where a command is held.
    Drain,
}

/// What a finished run is.
#[derive(Clone, Copy, Debug, PartialEq, Eq)]
pub enum Verdict {
    /// All is as the sequential target has it; the number of places.
    Legal { places: u32 },
    /// The first fault: its place and its field.
    NotLegal { place: u32, field: Field },
}
