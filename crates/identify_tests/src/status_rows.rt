use admin_identify::check_identify;
use look_tests::{NONE, OFF, World, WorldLook, controller};
use sqe_cqe::{Sqe, read_sqe};

// Identify by its dword 10.
pub(crate) fn identify_entry(cdw10: u32, nsid: u32, len: u32) -> Sqe {
    let mut e = read_sqe(&[0; 64]);
    e.opcode = 0x06;
    e.nsid = nsid;
    e.cdw10 = cdw10;
    e.sgl_len = len;
    e
}

// NSIDs 1 and 7 are enabled, 2 is off, the others aren't configured.
pub(crate) const SLOTS: [u8; 7] = [1, OFF, NONE, NONE, NONE, NONE, 1];

// Dword 10, NSID, SGL length, status.
const CHECKS: &[(u32, u32, u32, u16)] = &[
    // the page of a namespace: zeros where there is none
    (0x00, 1, 4096, 0),
    (0x00, 2, 4096, 0),
    (0x00, 0, 4096, 0),
    (0x00, 9, 4096, 0),
    (0x00, 2049, 4096, 0),
    (0x00, 0xffff_fffe, 4096, 0),
    (0x00, 0xffff_ffff, 4096, 0x8016),
    // the page of the controller, whatever the NSID
    (0x01, 0, 4096, 0),
    (0x01, 9, 4096, 0),
    (0x01, 0xffff_ffff, 4096, 0),
    // the active list
    (0x02, 0, 4096, 0),
    (0x02, 1, 4096, 0),
    (0x02, 0xffff_fffd, 4096, 0),
    (0x02, 0xffff_fffe, 4096, 0x8016),
    (0x02, 0xffff_ffff, 4096, 0x8016),
    // descriptors
    (0x03, 1, 4096, 0),
    (0x03, 7, 4096, 0),
    (0x03, 2, 4096, 0x0600),
    (0x03, 3, 4096, 0x8016),
    (0x03, 8, 4096, 0x8016),
    (0x03, 0, 4096, 0x8016),
    (0x03, 0xffff_ffff, 4096, 0x8016),
    // other pages
    (0x04, 1, 4096, 0x8004),
    (0x05, 1, 4096, 0x8004),
    (0x10, 1, 4096, 0x8004),
    (0x55, 0, 4096, 0x8004),
    (0x80, 1, 4096, 0x8004),
    (0xff, 1, 4096, 0x8004),
    (0x55, 0xffff_ffff, 4096, 0x8004),
    // the length comes first
    (0x01, 0, 4095, 0x801e),
    (0x01, 0, 4097, 0x801e),
    (0x01, 0, 0, 0x801e),
    (0x01, 0, 0x0001_1000, 0x801e),
    (0x55, 0, 4095, 0x801e),
    (0x00, 0xffff_ffff, 4095, 0x801e),
    (0x02, 0xffff_fffe, 4095, 0x801e),
    (0x03, 2, 4095, 0x801e),
    // only the low byte names the page
    (0xabcd_0001, 0, 4096, 0),
    (0xffff_ff00, 1, 4096, 0),
    (0x0000_0102, 0xffff_ffff, 4096, 0x8016),
    (0x0000_0155, 1, 4096, 0x8004),
];

#[test]
fn identify_is_checked_in_order(rt: HostRuntime) {
    let c = controller();
    let world = World::new(&SLOTS, &[], &[1]);
    let mut look = WorldLook::new(&world);
    for (cdw10, nsid, len, status) in CHECKS.iter() {
        let e = identify_entry(*cdw10, *nsid, *len);
        let found = check_identify(&c, &e, &mut look);
        assert_eq!(rt; found, *status, "{cdw10:x} of {nsid}, {len} bytes");
    }
}
