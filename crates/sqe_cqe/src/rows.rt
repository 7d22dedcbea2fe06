ghost use Rattle.std.specs.Prelude.{◌≡◌};
ghost use Rattle.sqe_cqe.specs.Anas.{ana_number, ana_text, ana_named, AnaNamesAgain};

/// An enabled namespace, as commands see it.
#[derive(Clone, Copy, Debug, PartialEq, Eq)]
pub struct NsRow {
    /// The number of its disk in the plan, from 0.
    pub disk: u8,
    /// The base 2 logarithm of its block size in bytes (LBADS): 9 or 12.
    pub shift: u8,
    /// The number of its blocks (NSZE).
    pub blocks: u64,
    /// Its ANA group, from 1.
    pub group: u8,
    /// Its UUID (NVMe Base 2.0, Namespace Identification Descriptor of type 3).
    pub uuid: [u8; 16],
    /// Its namespace globally unique identifier (NGUID).
    pub nguid: [u8; 16],
}

/// What stands at an NSID of a subsystem.
#[derive(Clone, Copy, Debug, PartialEq, Eq)]
pub enum Seen {
    /// No namespace is configured there.
    NotConfigured,
    /// A namespace is configured and not enabled, or it drains.
    Off,
    /// An enabled namespace.
    On(NsRow),
}

/// The state of an ANA group at a port (NVMe Base 2.0, 8.1 Asymmetric Namespace Access Reporting).
#[derive(Clone, Copy, Debug, PartialEq, Eq)]
pub enum Ana {
    Optimized,
    NonOptimized,
    Inaccessible,
    PersistentLoss,
    Changing,
}

impl Ana {
    /// The number of the state in the ANA log page (NVMe Base 2.0, 5.16.1.13).
    pub fn number(self) -> u8
        ensures { result ≡ ana_number self }
    {
        match self {
            Ana::Optimized => 1,
            Ana::NonOptimized => 2,
            Ana::Inaccessible => 3,
            Ana::PersistentLoss => 4,
            Ana::Changing => 15,
        }
    }

    /// The state's text in nvmet's configfs (`ana_state`).
    pub fn text(self) -> &'static str
        ensures { result.now ≡ ana_text self }
    {
        match self {
            Ana::Optimized => "optimized",
            Ana::NonOptimized => "non-optimized",
            Ana::Inaccessible => "inaccessible",
            Ana::PersistentLoss => "persistent-loss",
            Ana::Changing => "change",
        }
    }

    /// The state that a text names in configfs, or `None` where it names none.
    pub fn named(value: &[u8]) -> Option<Ana>
        ensures { result ≡ ana_named value.now }
    {
        if value == b"optimized".as_slice() {
            return Some(Ana::Optimized);
        }
        if value == b"non-optimized".as_slice() {
            return Some(Ana::NonOptimized);
        }
        if value == b"inaccessible".as_slice() {
            return Some(Ana::Inaccessible);
        }
        if value == b"persistent-loss".as_slice() {
            return Some(Ana::PersistentLoss);
        }
        if value == b"change".as_slice() {
            return Some(Ana::Changing);
        }
        None
    }
}

/// A law of the texts of states: a text names a state exactly where it is the state's own text,
/// so a text that is written is read as the state again.
pub fn ana_text_again(_value: &[u8], _a: Ana)
    ensures { AnaNamesAgain _value.now _a }
{}

/// The highest NSID that any target offers, counted from 1. FFFFFFFFh names all namespaces and is above it.
pub const MAX_NSID: u32 = 2048;

/// What a target offers, by the fields of Identify that tell it.
#[derive(Clone, Copy, Debug, PartialEq, Eq)]
pub struct Offers {
    /// The highest NSID (NN), at most `MAX_NSID`.
    pub nsids: u32,
    /// Optional NVM commands (ONCS); 0008h is Write Zeroes.
    pub oncs: u16,
    /// Namespace write protection (NWPC).
    pub nwpc: u8,
    /// Reservations (RESCAP).
    pub rescap: u8,
}
