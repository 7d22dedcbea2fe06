// The entries and the data of generated capsules.
ghost use Rattle.std.specs.Prelude.{◌≡◌, ◌≤◌, ◌++◌, ◌^◌, ◌<◌, OnOk};
ghost use Rattle.gen_files.specs.Entries.{capsule_bytes, connect_bytes, connect_data, connect_names, zeros, connect_entry, enable_entry, event_entry, log_entry, plain_entry};

use sqe_cqe::{CONNECT, FABRICS, PROPERTY_SET, SGL, Sqe, write_sqe};
use std::alloc::AllocError;

/// Opcode of Asynchronous Event Request (NVMe Base 2.0, Figure 138).
pub const EVENT_REQUEST: u8 = 0x0c;

/// Opcode of Get Log Page (NVMe Base 2.0, Figure 138).
pub const GET_LOG_PAGE: u8 = 0x02;

/// Controller Configuration of a controller that is enabled: entries of 64 and completions of 16
/// bytes, EN 1 (NVMe Base 2.0, 3.1.3.5).
pub const ENABLING: u32 = 0x0046_0001;

/// Dword 10 of Get Log Page: 1,024 dwords of the changed namespace list, log page 04h.
pub const CHANGED_LIST: u32 = 0x03ff_0004;

/// How many bytes such a page has.
pub const LOG_BYTES: u32 = 4_096;

/// How many bytes the data of a Connect have.
pub const CONNECT_BYTES: u32 = 1_024;

// An entry with this opcode and command identifier; all else but the flags is 0.
pub(crate) fn plain_entry(opcode: u8, cid: u16) -> Sqe
    ensures { result ≡ plain_entry opcode cid }
{
    Sqe {
        opcode,
        flags: SGL,
        cid,
        nsid: 0,
        cdw2: 0,
        cdw3: 0,
        mptr: 0,
        sgl_addr: 0,
        sgl_len: 0,
        sgl_rest: [0; 4],
        cdw10: 0,
        cdw11: 0,
        cdw12: 0,
        cdw13: 0,
        cdw14: 0,
        cdw15: 0,
    }
}

fn connect_entry(qid: u16, sqsize: u16) -> Sqe
    ensures { result ≡ connect_entry qid sqsize }
{
    Sqe {
        nsid: u32::from(CONNECT),
        sgl_len: CONNECT_BYTES,
        cdw10: u32::from(qid) * 65_536,
        cdw11: u32::from(sqsize),
        ..plain_entry(FABRICS, 0)
    }
}

pub(crate) fn enable_entry(cid: u16) -> Sqe
    ensures { result ≡ enable_entry cid }
{
    Sqe {
        nsid: u32::from(PROPERTY_SET),
        cdw11: 0x14,
        cdw12: ENABLING,
        ..plain_entry(FABRICS, cid)
    }
}

pub(crate) fn event_entry(cid: u16) -> Sqe
    ensures { result ≡ event_entry cid }
{
    plain_entry(EVENT_REQUEST, cid)
}

pub(crate) fn log_entry(cid: u16) -> Sqe
    ensures { result ≡ log_entry cid }
{
    Sqe {
        sgl_len: LOG_BYTES,
        cdw10: CHANGED_LIST,
        ..plain_entry(GET_LOG_PAGE, cid)
    }
}

// Appends a capsule: its entry, and the data for the controller.
pub(crate) fn push_capsule(to: &mut Vec<u8>, e: &Sqe, payload: &[u8]) -> Result<(), AllocError>
    ensures { OnOk result (to.new.items ≡ to.old.items ++ capsule_bytes e.now payload.now) }
{
    to.extend_from_slice(&write_sqe(e))?;
    to.extend_from_slice(payload)?;
    Ok(())
}

// Appends so many zeros.
#[tactic(auto, unfolding(crate::specs::Entries::zeros))]
fn push_zeros(to: &mut Vec<u8>, count: usize) -> Result<(), AllocError>
    requires { count ≤ 1024 }
    ensures { OnOk result (to.new.items ≡ to.old.items ++ zeros count) }
{
    let len = to.len() + count;
    to.resize(len, 0)?;
    Ok(())
}

// Appends the subsystem's name and the host's, in 256 bytes each, and so many that are free.
#[tactic(auto, unfolding(crate::specs::Entries::connect_names))]
fn push_names(to: &mut Vec<u8>) -> Result<(), AllocError>
    ensures { OnOk result (to.new.items ≡ to.old.items ++ connect_names) }
{
    to.extend_from_slice(b"gen")?;
    push_zeros(to, 253)?;
    to.extend_from_slice(b"hostnqn")?;
    push_zeros(to, 249)?;
    push_zeros(to, 256)?;
    Ok(())
}

// Appends the data of a Connect to the controller of this number.
#[tactic(auto, unfolding(crate::specs::Entries::connect_data))]
fn push_connect_data(to: &mut Vec<u8>, cntlid: u16) -> Result<(), AllocError>
    ensures { OnOk result (to.new.items ≡ to.old.items ++ connect_data cntlid) }
{
    push_zeros(to, 16)?;
    to.extend_from_slice(&cntlid.to_le_bytes())?;
    push_zeros(to, 238)?;
    push_names(to)?;
    Ok(())
}

// Appends a Connect of the queue with this identifier and size.
#[tactic(auto, unfolding(crate::specs::Entries::connect_bytes))]
pub(crate) fn push_connect(
    to: &mut Vec<u8>,
    qid: u16,
    sqsize: u16,
    cntlid: u16,
) -> Result<(), AllocError>
    ensures { OnOk result (to.new.items ≡ to.old.items ++ connect_bytes qid sqsize cntlid) }
{
    push_capsule(to, &connect_entry(qid, sqsize), &[])?;
    push_connect_data(to, cntlid)?;
    Ok(())
}
