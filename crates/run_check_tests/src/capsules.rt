// Capsules of queue files. Their command identifiers count from 1.
use sqe_cqe::{Sqe, write_sqe};
use std::alloc::Global;
use std::test::Fail;

/// A capsule.
#[derive(Clone, Copy)]
pub enum Capsule {
    /// Connect to the subsystem `s` by this QID, an admin queue by 0; another one names controller 1.
    Connect(u16),
    /// CC becomes 00460001h, so that the controller is ready.
    Enable,
    /// An asynchronous event request.
    Event,
    /// The first four bytes of log 04h, with RAE 0.
    ChangedList,
    KeepAlive,
    /// So many blocks of 512 bytes of namespace 1 are written, the first ones, with this byte.
    Write(u16, u8),
    /// So many blocks of 512 bytes of namespace 1 are read, the first ones.
    Read(u16),
    Flush,
}

// An entry with flags 40h: the opcode, NSID field, SGL length, and dwords 10 to 12.
fn entry(cid: u16, opcode: u8, nsid: u32, sgl_len: u32, dwords: [u32; 3]) -> Sqe {
    let [cdw10, cdw11, cdw12] = dwords;
    Sqe {
        opcode,
        flags: 0x40,
        cid,
        nsid,
        cdw2: 0,
        cdw3: 0,
        mptr: 0,
        sgl_addr: 0,
        sgl_len,
        sgl_rest: [0; 4],
        cdw10,
        cdw11,
        cdw12,
        cdw13: 0,
        cdw14: 0,
        cdw15: 0,
    }
}

// Of a Read or Write of so many blocks.
fn block_entry(cid: u16, opcode: u8, blocks: u16) -> Sqe {
    let length = u32::from(blocks).saturating_mul(512);
    let last = u32::from(blocks.saturating_sub(1));
    entry(cid, opcode, 1, length, [0, 0, last])
}

impl Capsule {
    // The submission entry.
    fn entry(&self, cid: u16) -> Sqe {
        match *self {
            Capsule::Connect(qid) => {
                let dword = u32::from(qid).saturating_mul(65_536);
                entry(cid, 0x7F, 1, 1024, [dword, 31, 15_000])
            }
            Capsule::Enable => entry(cid, 0x7F, 0, 0, [0, 0x14, 0x0046_0001]),
            Capsule::Event => entry(cid, 0x0C, 0, 0, [0; 3]),
            Capsule::ChangedList => entry(cid, 0x02, 0, 4, [4, 0, 0]),
            Capsule::KeepAlive => entry(cid, 0x18, 0, 0, [0; 3]),
            Capsule::Write(blocks, _) => block_entry(cid, 0x01, blocks),
            Capsule::Read(blocks) => block_entry(cid, 0x02, blocks),
            Capsule::Flush => entry(cid, 0x00, 1, 0, [0; 3]),
        }
    }

    // Appends the data that follow the entry.
    fn put_data(&self, to: &mut Vec<u8>) -> Result<(), Fail> {
        match *self {
            Capsule::Connect(0) => put_connect_data(to, 0xFFFF),
            Capsule::Connect(_) => put_connect_data(to, 1),
            Capsule::Write(blocks, byte) => {
                for _ in 0..blocks {
                    to.extend_from_slice(&[byte; 512])?;
                }
                Ok(())
            }
            _ => Ok(()),
        }
    }
}

// Connect data: CNTLID at 16, the subsystem at 256, the host at 512, 1,024 bytes in all.
fn put_connect_data(to: &mut Vec<u8>, cntlid: u16) -> Result<(), Fail> {
    to.extend_from_slice(&[7; 16])?;
    to.extend_from_slice(&cntlid.to_le_bytes())?;
    to.extend_from_slice(&[0; 238])?;
    to.push(b's')?;
    to.extend_from_slice(&[0; 255])?;
    to.push(b'h')?;
    to.extend_from_slice(&[0; 511])?;
    Ok(())
}

/// The file of these capsules.
pub fn queue_file(alloc: Global, capsules: &[Capsule]) -> Result<Vec<u8>, Fail> {
    let mut bytes = Vec::new(alloc);
    let mut cid: u16 = 0;
    for capsule in capsules {
        cid = cid.saturating_add(1);
        bytes.extend_from_slice(&write_sqe(&capsule.entry(cid)))?;
        capsule.put_data(&mut bytes)?;
    }
    Ok(bytes)
}
