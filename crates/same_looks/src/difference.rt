//! Where two looks differ.

/// The first place at which two looks answer differently.
#[derive(Clone, Copy, PartialEq, Eq, Debug)]
pub enum Difference {
    /// Whether the controller with this number is ready.
    Controller(u16),
    /// What stands at an NSID of the subsystem at a position, its stamp, its attributes, or what
    /// bars a controller from it.
    Space(u8, u32),
    /// The state or the count of a group of the port at a position, or whether it is made.
    Group(u8, u32),
    /// The stamp of the last ANA change of the subsystem or the port at these positions.
    Stamp(u8, u8),
    /// The number of ANA changes, the serial, or what is offered.
    Whole,
    /// The status or the page of an Identify with this CNS, for an NSID.
    Identify(u32, u32),
    /// The log page with this identifier.
    Log(u32),
    /// The admission of a command with this opcode, for an NSID.
    Admission(u8, u32),
}
