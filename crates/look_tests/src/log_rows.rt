use crate::WorldLook;
use async_events::Events;
use log_pages::{check_log, write_log};
use sqe_cqe::{Ctrl, SUCCESS, Sqe, read_sqe};

// Dwords 10 to 13, SGL length, status. Two statuses that meet are told by the earlier check.
const CHECKS: &[([u32; 4], u32, u16)] = &[
    ([0x000d_000c, 0, 0, 0], 56, 0),
    ([0x000b_010c, 0, 0, 0], 48, 0),
    ([0x03ff_8004, 0, 0, 0], 4096, 0),
    ([0x0000_000c, 0, 0, 0], 4, 0),
    ([0x000d_7e0c, 0, 0, 0], 56, 0),
    ([0x000d_000c, 0xffff_0000, 0, 0], 56, 0),
    // other log pages
    ([0x000d_0002, 0, 0, 0], 56, 0x8004),
    ([0x000d_0000, 0, 0, 0], 56, 0x8004),
    ([0x000d_0001, 0, 0, 0], 56, 0x8004),
    ([0x000d_0003, 0, 0, 0], 56, 0x8004),
    ([0x000d_0005, 0, 0, 0], 56, 0x8004),
    ([0x000d_000d, 0, 0, 0], 56, 0x8004),
    ([0x000d_0070, 0, 0, 0], 56, 0x8004),
    ([0x000d_008c, 0, 0, 0], 56, 0x8004),
    // offsets
    ([0x000d_000c, 0, 1, 0], 56, 0x8004),
    ([0x000d_000c, 0, 2, 0], 56, 0x8004),
    ([0x000d_0004, 0, 3, 0], 56, 0x8004),
    ([0x000d_000c, 0, 4, 0], 56, 0),
    ([0x000d_000c, 0, 0, 1], 56, 0),
    ([0x000d_000c, 0, 0xffff_fffc, 0xffff_ffff], 56, 0),
    ([0x000d_0004, 0, 0xffff_fffc, 0xffff_ffff], 56, 0),
    ([0x000d_000c, 0, 0xffff_fffe, 0xffff_ffff], 56, 0x8004),
    ([0x000d_000c, 0, 0xffff_ffff, 0xffff_ffff], 56, 0x8004),
    // lengths
    ([0x000d_000c, 0, 0, 0], 0, 0x801e),
    ([0x000d_000c, 0, 0, 0], 52, 0x801e),
    ([0x000d_000c, 0, 0, 0], 55, 0x801e),
    ([0x000d_000c, 0, 0, 0], 60, 0x801e),
    ([0x0000_0004, 0, 0, 0], 0, 0x801e),
    ([0x7fff_000c, 0, 0, 0], 131_072, 0),
    ([0x7fff_0004, 0, 0, 0], 131_072, 0),
    ([0x8000_000c, 0, 0, 0], 131_076, 0x8004),
    ([0x8000_000c, 0, 0, 0], 131_072, 0x801e),
    ([0xffff_000c, 0, 0, 0], 262_144, 0x8004),
    ([0x0000_000c, 1, 0, 0], 262_148, 0x8004),
    ([0x0000_000c, 1, 0, 0], 4, 0x801e),
    // 2^32 + 4 bytes, and 2^34
    ([0x0000_000c, 0x4000, 0, 0], 4, 0x801e),
    ([0xffff_000c, 0xffff, 0, 0], 0, 0x801e),
    ([0xffff_0004, 0xffff, 0, 0], 0xffff_fffc, 0x801e),
    ([0xffff_000c, 0xffff, 0, 0], 0xffff_ffff, 0x801e),
    // the log before the offset, and the offset before the length
    ([0xffff_0002, 0xffff, 0, 0], 0, 0x8004),
    ([0xffff_000c, 0xffff, 2, 0], 0, 0x8004),
    ([0x000d_0002, 0, 0, 0], 52, 0x8004),
    ([0x8000_000c, 0, 2, 0], 131_076, 0x8004),
];

// Get Log Page by its dwords 10 to 13.
pub(crate) fn log_entry(dwords: &[u32; 4], len: u32) -> Sqe {
    let [cdw10, cdw11, cdw12, cdw13] = *dwords;
    let mut e = read_sqe(&[0; 64]);
    e.opcode = 0x02;
    e.cdw10 = cdw10;
    e.cdw11 = cdw11;
    e.cdw12 = cdw12;
    e.cdw13 = cdw13;
    e.sgl_len = len;
    e
}

// Reads as many bytes as `to` has from an offset on, by a dword 10 without its count. Tells the status.
pub(crate) fn read_log(
    c: &Ctrl,
    ev: &mut Events,
    cdw10: u32,
    offset: u64,
    look: &mut WorldLook<'_>,
    to: &mut [u8],
) -> u16 {
    let len = (to.len() % 0x1_0000_0000) as u32;
    let low = (offset % 0x1_0000_0000) as u32;
    let high = (offset / 0x1_0000_0000) as u32;
    let count = (len / 4).wrapping_sub(1) % 0x1_0000;
    let e = log_entry(&[cdw10 % 0x1_0000 + count * 0x1_0000, 0, low, high], len);
    let status = check_log(&e);
    if status == SUCCESS && e.sgl_len as usize == to.len() {
        write_log(c, ev, &e, look, to);
    }
    status
}

#[test]
fn log_reads_are_checked_in_order(rt: HostRuntime) {
    for (dwords, len, status) in CHECKS.iter() {
        let found = check_log(&log_entry(dwords, *len));
        assert_eq!(rt; found, *status, "{dwords:?} of {len} bytes");
    }
}
