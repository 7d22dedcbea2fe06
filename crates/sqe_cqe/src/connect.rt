ghost use Rattle.std.specs.Prelude.{◌≡◌, ◌≤◌, ◌+◌};
ghost use Rattle.sqe_cqe.specs.Fields.{field};
ghost use Rattle.sqe_cqe.specs.Connect.{bytes_in, connect_of, record_format_of, qid_of, queue_size_of, attributes_of, keep_alive_of, is_long_property_of, property_offset_of, property_value_of};

use crate::sqe::Sqe;
use byteorder::{ByteOrder, LittleEndian};

/// The data of a Connect, 1,024 bytes (NVMe over Fabrics 1.1, 3.3).
#[derive(Clone, Copy, Debug, PartialEq, Eq)]
pub struct ConnectData {
    /// Host identifier (HOSTID), which this target does not look at.
    pub host_id: [u8; 16],
    /// Controller ID (CNTLID): FFFFh on an admin queue, which asks for a new controller.
    pub cntlid: u16,
    /// The NQN of the subsystem (SUBNQN), up to the first zero byte.
    pub subnqn: [u8; 256],
    /// The NQN of the host (HOSTNQN), up to the first zero byte.
    pub hostnqn: [u8; 256],
}

fn id_at(bytes: &[u8; 1024], at: usize) -> [u8; 16]
    requires { at + 16 ≤ 1024 }
    ensures { result ≡ bytes_in at 16 bytes.now }
{
    let mut id = [0; 16];
    id.copy_from_slice(&bytes[at..at + 16]);
    id
}

fn name_at(bytes: &[u8; 1024], at: usize) -> [u8; 256]
    requires { at + 256 ≤ 1024 }
    ensures { result ≡ bytes_in at 256 bytes.now }
{
    let mut name = [0; 256];
    name.copy_from_slice(&bytes[at..at + 256]);
    name
}

fn half_at(bytes: &[u8; 1024], at: usize) -> u16
    requires { at + 2 ≤ 1024 }
    ensures { result ≡ field at 2 bytes.now }
{
    LittleEndian::read_u16(&bytes[at..])
}

/// Reads the data of a Connect. Reserved bytes are not looked at.
#[tactic(auto, unfolding(crate::specs::Connect::connect_of))]
pub fn read_connect(bytes: &[u8; 1024]) -> ConnectData
    ensures { result ≡ connect_of bytes.now }
{
    ConnectData {
        host_id: id_at(bytes, 0),
        cntlid: half_at(bytes, 16),
        subnqn: name_at(bytes, 256),
        hostnqn: name_at(bytes, 512),
    }
}

/// Record format (RECFMT) of a Connect: bytes 40 and 41 of its entry.
pub fn record_format(e: &Sqe) -> u16
    ensures { result ≡ record_format_of e.now }
{
    (e.cdw10 % 0x1_0000) as u16
}

/// Queue ID (QID) of a Connect, 0 for an admin queue: bytes 42 and 43 of its entry.
pub fn qid(e: &Sqe) -> u16
    ensures { result ≡ qid_of e.now }
{
    (e.cdw10 / 0x1_0000) as u16
}

/// Queue size (SQSIZE) of a Connect in entries, counted from 0: bytes 44 and 45 of its entry.
pub fn queue_size(e: &Sqe) -> u16
    ensures { result ≡ queue_size_of e.now }
{
    (e.cdw11 % 0x1_0000) as u16
}

/// Connect attributes (CATTR): byte 46 of its entry, which this target does not look at.
pub fn attributes(e: &Sqe) -> u8
    ensures { result ≡ attributes_of e.now }
{
    (e.cdw11 / 0x1_0000 % 0x100) as u8
}

/// Keep alive timeout (KATO) of a Connect, in milliseconds: bytes 48 to 51 of its entry.
pub fn keep_alive(e: &Sqe) -> u32
    ensures { result ≡ keep_alive_of e.now }
{
    e.cdw12
}

/// Whether a Property Get or Property Set is of eight bytes, else of four: bit 0 of byte 40 of its
/// entry (ATTRIB).
pub fn is_long_property(e: &Sqe) -> bool
    ensures { result ≡ is_long_property_of e.now }
{
    e.cdw10 % 2 == 1
}

/// Offset (OFST) of a property: bytes 44 to 47 of its entry.
pub fn property_offset(e: &Sqe) -> u32
    ensures { result ≡ property_offset_of e.now }
{
    e.cdw11
}

/// Value of a Property Set, low half first: bytes 48 to 55 of its entry.
pub fn property_value(e: &Sqe) -> u64
    ensures { result ≡ property_value_of e.now }
{
    e.cdw12 as u64 + 0x1_0000_0000 * e.cdw13 as u64
}
