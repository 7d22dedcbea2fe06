/// A kind of change, as a controller has it: whether notices of it are on, and whether one is masked
/// or pending.
#[derive(Clone, Copy, Debug, PartialEq, Eq)]
pub struct Kind {
    /// The bit of the feature Asynchronous Event Configuration.
    pub on: bool,
    /// A notice was raised, and its log was not read since with Retain Asynchronous Event 0.
    pub masked: bool,
    /// A notice was raised, and no event request was completed with it yet.
    pub pending: bool,
}

/// The logs whose reading unmasks a kind.
#[derive(Clone, Copy, Debug, PartialEq, Eq)]
pub enum Log {
    /// Changed Namespace List, 04h: unmasks namespace changes.
    Changed,
    /// Asymmetric Namespace Access, 0Ch: unmasks ANA changes.
    Ana,
}
