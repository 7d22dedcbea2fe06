//! The positions of a table's words.
ghost use Rattle.std.specs.Prelude.{◌≡◌, ◌≤◌, ◌<◌, ◌+◌};
ghost use Rattle.ns_table.specs.Positions.{Changes, IsController, IsGroup, IsNsid, PortStamp, PositionsAreBelow, PositionsAreDistinct, PositionsAreUsed, Ready, Shown, Space, State, SubsystemStamp, at};

/// How many words a configuration has, whatever it holds.
pub const WORDS: u32 = 361_592;

/// How many words an NSID of a subsystem has: the phase, the disk's number, the base 2 logarithm of
/// the block size, the number of blocks, the ANA group, two of the UUID, two of the NGUID, one that
/// is reserved and 0, and the stamp of the last change.
pub const PARTS: u32 = 11;

/// A word that isn't 0 exactly where an enabled namespace is on this disk, counted from 0.
pub fn shown_word(disk: u8) -> u32
    requires { disk < 64 }
    ensures value { result ≡ at (Shown disk) }
    ensures small { result < WORDS }
{
    u32::from(disk)
}

/// A word that isn't 0 exactly where this controller, counted from 1, is ready.
pub fn ready_word(ctrl: u16) -> u32
    requires { IsController ctrl }
    ensures value { result ≡ at (Ready ctrl) }
    ensures small { result < WORDS }
{
    63 + u32::from(ctrl)
}

/// The word with the number of ANA changes since the configuration was loaded.
pub fn changes_word() -> u32
    ensures value { result ≡ at Changes }
    ensures small { result < WORDS }
{
    95
}

/// The stamp of the last ANA change of the subsystem at this position.
pub fn subsystem_stamp_word(sub: u8) -> u32
    requires { sub < 16 }
    ensures value { result ≡ at (SubsystemStamp sub) }
    ensures small { result < WORDS }
{
    96 + u32::from(sub)
}

/// The stamp of the last ANA change of the port at this position.
pub fn port_stamp_word(port: u8) -> u32
    requires { port < 8 }
    ensures value { result ≡ at (PortStamp port) }
    ensures small { result < WORDS }
{
    112 + u32::from(port)
}

/// The number of the state of a group, from 1, at the port at this position; 0 where it isn't made.
pub fn ana_word(port: u8, group: u32) -> u32
    requires { IsGroup port group }
    ensures value { result ≡ at (State port group) }
    ensures small { result < WORDS }
{
    119 + 128 * u32::from(port) + group
}

/// A part, from 0, of what stands at an NSID, from 1, of the subsystem at this position.
pub fn ns_word(sub: u8, nsid: u32, part: u32) -> u32
    requires nsid { IsNsid sub nsid }
    requires part { part < PARTS }
    ensures value { result ≡ at (Space sub nsid part) }
    ensures small { result < WORDS }
{
    1_133 + 11 * (2_048 * u32::from(sub) + nsid) + part
}

/// A law, with nothing to run: each word stands below the number of words.
pub fn positions_are_below()
    ensures { PositionsAreBelow }
{}

/// A law, with nothing to run: no two words stand at one position.
pub fn positions_are_distinct()
    ensures { PositionsAreDistinct }
{}

/// A law, with nothing to run: each position below the number of words is that of a word.
pub fn positions_are_used()
    ensures { PositionsAreUsed }
{}
