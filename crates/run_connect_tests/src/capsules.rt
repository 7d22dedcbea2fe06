// Capsules of queue files: Connect with its data, property commands, and commands without data.
use sqe_cqe::{Sqe, write_sqe};
use std::alloc::Global;
use std::test::Fail;

/// An NQN of Connect data, and what stands behind it in its 256 bytes.
#[derive(Clone, Copy)]
pub enum Nqn {
    /// The name, then zeros.
    Name(&'static str),
    /// 256 bytes `h`, no zero among them.
    Unended,
}

/// A capsule of a table.
#[derive(Clone, Copy)]
pub enum Capsule {
    /// Connect: flags, SGL length, RECFMT, QID, SQSIZE, CNTLID, subsystem, host.
    Connect(u8, u32, u16, u16, u16, u16, Nqn, Nqn),
    /// Property Get: 0 for four bytes, 1 for eight; the offset.
    Get(u8, u32),
    /// Property Set of four bytes: the offset, the value.
    Set(u32, u32),
    /// One block of 512 bytes of this NSID is read, the first.
    Read(u32),
    /// The first block of this NSID is written with this byte.
    Write(u32, u8),
    /// Keep Alive, or another opcode without data.
    Other(u8),
}

// The entry of an opcode that takes no data, with flags 40h; its NSID field and dwords 10 to 13.
fn plain(opcode: u8, flags: u8, cid: u16, nsid: u32, sgl_len: u32, dwords: [u32; 4]) -> Sqe {
    let [cdw10, cdw11, cdw12, cdw13] = dwords;
    Sqe {
        opcode,
        flags,
        cid,
        nsid,
        cdw2: 0,
        cdw3: 0,
        mptr: 0,
        sgl_addr: 0,
        sgl_len,
        sgl_rest: [0; 4],
        cdw10,
        cdw11,
        cdw12,
        cdw13,
        cdw14: 0,
        cdw15: 0,
    }
}

// Appends a name in a field of 256 bytes.
fn put_nqn(bytes: &mut Vec<u8>, nqn: Nqn) -> Result<(), Fail> {
    match nqn {
        Nqn::Name(name) => {
            bytes.extend_from_slice(name.as_bytes())?;
            for _ in name.len()..256 {
                bytes.push(0)?;
            }
        }
        Nqn::Unended => bytes.extend_from_slice(&[b'h'; 256])?,
    }
    Ok(())
}

// Appends Connect data: CNTLID at 16, the subsystem at 256, the host at 512, 1,024 bytes in all, or
// one byte less or more where the length says so.
fn put_connect_data(
    bytes: &mut Vec<u8>,
    length: usize,
    cntlid: u16,
    subsystem: Nqn,
    host: Nqn,
) -> Result<(), Fail> {
    bytes.extend_from_slice(&[7; 16])?;
    bytes.extend_from_slice(&cntlid.to_le_bytes())?;
    bytes.extend_from_slice(&[0; 238])?;
    put_nqn(bytes, subsystem)?;
    put_nqn(bytes, host)?;
    bytes.extend_from_slice(&[0; 256])?;
    // 1,023 and 1,025 bytes of data have one byte of a next field less or more.
    if length < 1024 {
        let _ = bytes.pop();
    } else if length > 1024 {
        bytes.push(0)?;
    }
    Ok(())
}

/// The file of these capsules; their command identifiers count from 1.
pub fn queue_file(alloc: Global, capsules: &[Capsule]) -> Result<Vec<u8>, Fail> {
    let mut bytes = Vec::new(alloc);
    let mut cid: u16 = 0;
    for capsule in capsules {
        cid = cid.wrapping_add(1);
        match *capsule {
            Capsule::Connect(flags, length, recfmt, qid, sqsize, cntlid, subsystem, host) => {
                let dwords = [
                    u32::from(recfmt) + 65_536 * u32::from(qid),
                    u32::from(sqsize),
                    15_000,
                    0,
                ];
                bytes.extend_from_slice(&write_sqe(&plain(0x7F, flags, cid, 1, length, dwords)))?;
                put_connect_data(&mut bytes, length as usize, cntlid, subsystem, host)?;
            }
            Capsule::Get(size, offset) => bytes.extend_from_slice(&write_sqe(&plain(
                0x7F,
                0x40,
                cid,
                4,
                0,
                [u32::from(size), offset, 0, 0],
            )))?,
            Capsule::Set(offset, value) => bytes.extend_from_slice(&write_sqe(&plain(
                0x7F,
                0x40,
                cid,
                0,
                0,
                [0, offset, value, 0],
            )))?,
            Capsule::Read(nsid) => {
                bytes.extend_from_slice(&write_sqe(&plain(2, 0x40, cid, nsid, 512, [0; 4])))?;
            }
            Capsule::Write(nsid, byte) => {
                bytes.extend_from_slice(&write_sqe(&plain(1, 0x40, cid, nsid, 512, [0; 4])))?;
                bytes.extend_from_slice(&[byte; 512])?;
            }
            Capsule::Other(opcode) => {
                bytes.extend_from_slice(&write_sqe(&plain(opcode, 0x40, cid, 0, 0, [0; 4])))?;
            }
        }
    }
    Ok(bytes)
}
