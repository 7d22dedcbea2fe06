ghost use Rattle.std.specs.Prelude.{◌≡◌, ◌≤◌, ◌+◌};
ghost use Rattle.sqe_cqe.specs.Fields.{field, StandIn};
ghost use Rattle.sqe_cqe.specs.Cqe.{cqe_of, cqe_bytes, cqe_fields};

use byteorder::{ByteOrder, LittleEndian};

/// A completion of 16 bytes (NVMe Base 2.0, 3.3.3.2 Completion Queue Entry).
#[derive(Clone, Copy, Debug, PartialEq, Eq)]
pub struct Cqe {
    /// Dwords 0 and 1, low half first.
    pub result: u64,
    /// SQ head pointer. This target answers 0.
    pub sq_head: u16,
    /// SQ identifier: the QID of the queue that submitted.
    pub sq_id: u16,
    /// Command identifier of the submission entry.
    pub cid: u16,
    /// Status field: phase in bit 0 (always 0 here), SC in 8:1, SCT in 11:9, DNR in 15.
    pub status: u16,
}

fn half_at(bytes: &[u8; 16], at: usize) -> u16
    requires { at + 2 ≤ 16 }
    ensures { result ≡ field at 2 bytes.now }
{
    LittleEndian::read_u16(&bytes[at..])
}

fn long_at(bytes: &[u8; 16], at: usize) -> u64
    requires { at + 8 ≤ 16 }
    ensures { result ≡ field at 8 bytes.now }
{
    LittleEndian::read_u64(&bytes[at..])
}

/// Reads a completion: each field is the little-endian number at its offset.
#[tactic(auto, unfolding(crate::specs::Cqe::cqe_of))]
pub fn read_cqe(bytes: &[u8; 16]) -> Cqe
    ensures value { result ≡ cqe_of bytes.now }
    ensures fields { StandIn bytes.now (cqe_fields result) }
{
    Cqe {
        result: long_at(bytes, 0),
        sq_head: half_at(bytes, 8),
        sq_id: half_at(bytes, 10),
        cid: half_at(bytes, 12),
        status: half_at(bytes, 14),
    }
}

/// Writes a completion: its fields one after another, each little-endian.
#[tactic(auto, unfolding(crate::specs::Cqe::cqe_bytes))]
pub fn write_cqe(c: &Cqe) -> [u8; 16]
    ensures { result ≡ cqe_bytes c.now }
{
    let [r0, r1, r2, r3, r4, r5, r6, r7] = c.result.to_le_bytes();
    let [h0, h1] = c.sq_head.to_le_bytes();
    let [q0, q1] = c.sq_id.to_le_bytes();
    let [c0, c1] = c.cid.to_le_bytes();
    let [s0, s1] = c.status.to_le_bytes();
    [
        r0, r1, r2, r3, r4, r5, r6, r7, h0, h1, q0, q1, c0, c1, s0, s1,
    ]
}
