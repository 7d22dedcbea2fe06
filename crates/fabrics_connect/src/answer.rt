use sqe_cqe::{Bound, Cqe, Ctrl};

/// Why a command is refused: the status field of its completion, and its result.
#[derive(Clone, Copy, Debug, PartialEq, Eq)]
pub struct Fault {
    pub status: u16,
    pub result: u64,
}

/// What the checks of a fabrics command come to.
#[derive(Clone, Copy, Debug, PartialEq, Eq)]
pub enum Answer {
    /// A check failed: nothing changes.
    Refused(Fault),
    /// An admin queue makes a controller: its binding, and the name of its host, filled up with
    /// zeros.
    Makes(Bound, [u8; 256]),
    /// An I/O queue joins its controller.
    Joins(Bound),
    /// A property is read: its value.
    Reads(u64),
    /// CC is set to a value.
    Sets(u32),
}

/// What a fabrics command tells its caller.
#[derive(Clone, Copy, Debug, PartialEq, Eq)]
pub struct Control {
    /// Its completion.
    pub cqe: Cqe,
    /// Whether the target's settings changed.
    pub published: bool,
    /// The controller that an accepted admin Connect made, with `since` 0, which the caller sets.
    pub made: Option<Ctrl>,
}
