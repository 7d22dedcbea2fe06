ghost use Rattle.std.specs.Prelude.{◌≡◌, ◌≤◌, ◌<◌, ◌+◌, ◌^◌};
ghost use Rattle.sqe_cqe.specs.Fields.{field, StandIn};
ghost use Rattle.sqe_cqe.specs.Sqe.{sqe_of, sqe_fields, sqe_bytes, direction_of, fctype_of, payload_len};

use crate::codes::FABRICS;
use crate::way::Direction;
use byteorder::{ByteOrder, LittleEndian};

/// A submission entry of 64 bytes (NVMe Base 2.0, 3.3.3.1 Submission Queue Entry).
#[derive(Clone, Copy, Debug, PartialEq, Eq)]
pub struct Sqe {
    pub opcode: u8,
    /// FUSE in bits 1:0 and PSDT in bits 7:6.
    pub flags: u8,
    /// Command identifier.
    pub cid: u16,
    /// Namespace identifier; its low byte is FCTYPE in a fabrics command.
    pub nsid: u32,
    pub cdw2: u32,
    pub cdw3: u32,
    /// Metadata pointer.
    pub mptr: u64,
    /// Address of the SGL descriptor, which this target does not look at.
    pub sgl_addr: u64,
    /// Length of the SGL descriptor, in bytes.
    pub sgl_len: u32,
    /// The other bytes of the SGL descriptor, which this target does not look at.
    pub sgl_rest: [u8; 4],
    pub cdw10: u32,
    pub cdw11: u32,
    pub cdw12: u32,
    pub cdw13: u32,
    pub cdw14: u32,
    pub cdw15: u32,
}

fn byte_at(bytes: &[u8; 64], at: usize) -> u8
    requires { at < 64 }
    ensures { result ≡ field at 1 bytes.now }
{
    bytes[at]
}

fn half_at(bytes: &[u8; 64], at: usize) -> u16
    requires { at + 2 ≤ 64 }
    ensures { result ≡ field at 2 bytes.now }
{
    LittleEndian::read_u16(&bytes[at..])
}

fn word_at(bytes: &[u8; 64], at: usize) -> u32
    requires { at + 4 ≤ 64 }
    ensures { result ≡ field at 4 bytes.now }
{
    LittleEndian::read_u32(&bytes[at..])
}

fn long_at(bytes: &[u8; 64], at: usize) -> u64
    requires { at + 8 ≤ 64 }
    ensures { result ≡ field at 8 bytes.now }
{
    LittleEndian::read_u64(&bytes[at..])
}

/// Reads an entry: each field is the little-endian number at its offset.
#[tactic(auto, unfolding(crate::specs::Sqe::sqe_of))]
pub fn read_sqe(bytes: &[u8; 64]) -> Sqe
    ensures value { result ≡ sqe_of bytes.now }
    ensures fields { StandIn bytes.now (sqe_fields result) }
{
    Sqe {
        opcode: byte_at(bytes, 0),
        flags: byte_at(bytes, 1),
        cid: half_at(bytes, 2),
        nsid: word_at(bytes, 4),
        cdw2: word_at(bytes, 8),
        cdw3: word_at(bytes, 12),
        mptr: long_at(bytes, 16),
        sgl_addr: long_at(bytes, 24),
        sgl_len: word_at(bytes, 32),
        sgl_rest: [
            byte_at(bytes, 36),
            byte_at(bytes, 37),
            byte_at(bytes, 38),
            byte_at(bytes, 39),
        ],
        cdw10: word_at(bytes, 40),
        cdw11: word_at(bytes, 44),
        cdw12: word_at(bytes, 48),
        cdw13: word_at(bytes, 52),
        cdw14: word_at(bytes, 56),
        cdw15: word_at(bytes, 60),
    }
}

/// Writes an entry: its fields one after another, each little-endian.
#[tactic(auto, unfolding(crate::specs::Sqe::sqe_bytes))]
pub fn write_sqe(e: &Sqe) -> [u8; 64]
    ensures { result ≡ sqe_bytes e.now }
{
    let [opcode] = e.opcode.to_le_bytes();
    let [flags] = e.flags.to_le_bytes();
    let [i0, i1] = e.cid.to_le_bytes();
    let [n0, n1, n2, n3] = e.nsid.to_le_bytes();
    let [w0, w1, w2, w3] = e.cdw2.to_le_bytes();
    let [x0, x1, x2, x3] = e.cdw3.to_le_bytes();
    let [m0, m1, m2, m3, m4, m5, m6, m7] = e.mptr.to_le_bytes();
    let [s0, s1, s2, s3, s4, s5, s6, s7] = e.sgl_addr.to_le_bytes();
    let [l0, l1, l2, l3] = e.sgl_len.to_le_bytes();
    let [r0, r1, r2, r3] = e.sgl_rest;
    let ([t0], [t1]) = (r0.to_le_bytes(), r1.to_le_bytes());
    let ([t2], [t3]) = (r2.to_le_bytes(), r3.to_le_bytes());
    let [a0, a1, a2, a3] = e.cdw10.to_le_bytes();
    let [b0, b1, b2, b3] = e.cdw11.to_le_bytes();
    let [c0, c1, c2, c3] = e.cdw12.to_le_bytes();
    let [d0, d1, d2, d3] = e.cdw13.to_le_bytes();
    let [e0, e1, e2, e3] = e.cdw14.to_le_bytes();
    let [f0, f1, f2, f3] = e.cdw15.to_le_bytes();
    [
        opcode, flags, i0, i1, n0, n1, n2, n3, w0, w1, w2, w3, x0, x1, x2, x3, m0, m1, m2, m3, m4,
        m5, m6, m7, s0, s1, s2, s3, s4, s5, s6, s7, l0, l1, l2, l3, t0, t1, t2, t3, a0, a1, a2, a3,
        b0, b1, b2, b3, c0, c1, c2, c3, d0, d1, d2, d3, e0, e1, e2, e3, f0, f1, f2, f3,
    ]
}

/// FCTYPE, the type of a fabrics command (opcode 7Fh): the low byte of its NSID (NVMe over Fabrics 1.1, 3).
pub fn fctype(e: &Sqe) -> u8
    ensures { result ≡ fctype_of e.now }
{
    (e.nsid % 256) as u8
}

/// Which way the data of this entry go: by bits 1:0 of the opcode, for a fabrics command by those of FCTYPE.
#[tactic(auto, unfolding(crate::specs::Sqe::direction_of))]
pub fn direction(e: &Sqe) -> Direction
    ensures { result ≡ direction_of e.now }
{
    let kind = if e.opcode == FABRICS {
        fctype(e)
    } else {
        e.opcode
    };
    match kind % 4 {
        0 => Direction::Nothing,
        1 => Direction::ToController,
        2 => Direction::ToHost,
        _ => Direction::Both,
    }
}

/// How many bytes of data follow the entry in a capsule: its SGL length where they go to the controller, else 0.
#[tactic(auto, unfolding(crate::specs::Sqe::payload_len))]
pub fn data_len(e: &Sqe) -> usize
    ensures value { result ≡ payload_len e.now }
    ensures short { result < 2 ^ 32 }
{
    match direction(e) {
        Direction::ToController => e.sgl_len as usize,
        _ => 0,
    }
}
