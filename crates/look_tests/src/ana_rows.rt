use crate::log_rows::{log_entry, read_log};
use crate::{Fields, NONE, OFF, World, WorldLook, controller, first_uncounted, first_wrong};
use ana_groups::ana_page;
use async_events::Events;
use log_pages::{check_log, write_log};
use sqe_cqe::SUCCESS;

// Two enabled namespaces in group 1, which is optimized; no ANA change yet.
const TWO_IN_GROUP_1: Fields<'static> = &[
    ("change count", 0, &[0, 0, 0, 0, 0, 0, 0, 0]),
    ("number of groups", 8, &[1, 0]),
    ("group", 16, &[1, 0, 0, 0]),
    ("number of NSIDs", 20, &[2, 0, 0, 0]),
    ("change count", 24, &[0, 0, 0, 0, 0, 0, 0, 0]),
    ("state", 32, &[1]),
    ("NSID", 48, &[1, 0, 0, 0]),
    ("NSID", 52, &[2, 0, 0, 0]),
];

// The same with Return Groups Only.
const GROUP_1_ALONE: Fields<'static> = &[
    ("number of groups", 8, &[1, 0]),
    ("group", 16, &[1, 0, 0, 0]),
    ("number of NSIDs", 20, &[0, 0, 0, 0]),
    ("state", 32, &[1]),
];

// The bytes from 16 to 55 of the first.
const FROM_16: Fields<'static> = &[
    ("group", 0, &[1, 0, 0, 0]),
    ("number of NSIDs", 4, &[2, 0, 0, 0]),
    ("state", 16, &[1]),
    ("NSID", 32, &[1, 0, 0, 0]),
    ("NSID", 36, &[2, 0, 0, 0]),
];

// From a byte on, fields cut at both ends.
const FROM_20: Fields<'static> = &[("number of NSIDs", 0, &[2, 0, 0, 0]), ("state", 12, &[1])];

const LAST: Fields<'static> = &[("NSID", 0, &[2, 0, 0, 0])];

const NOTHING: Fields<'static> = &[];

// Dwords 10 to 13, how many bytes, and what is then read.
const READS: &[([u32; 4], usize, Fields<'static>)] = &[
    ([0x000d_000c, 0, 0, 0], 56, TWO_IN_GROUP_1),
    ([0x000b_010c, 0, 0, 0], 48, GROUP_1_ALONE),
    ([0x0009_000c, 0, 16, 0], 40, FROM_16),
    ([0x0009_000c, 0, 64, 0], 40, NOTHING),
    ([0x03ff_000c, 0, 0, 0], 4096, TWO_IN_GROUP_1),
    ([0x03ff_010c, 0, 0, 0], 4096, GROUP_1_ALONE),
    ([0x03ff_000c, 0, 16, 0], 4096, FROM_16),
    ([0x0006_000c, 0, 20, 0], 28, FROM_20),
    ([0x0000_000c, 0, 52, 0], 4, LAST),
    ([0x0001_000c, 0, 52, 0], 8, LAST),
    ([0x0000_000c, 0, 56, 0], 4, NOTHING),
    ([0x0001_010c, 0, 48, 0], 8, NOTHING),
    ([0x000d_000c, 0, 0, 1], 56, NOTHING),
    ([0x000d_000c, 0, 16, 1], 56, NOTHING),
    ([0x000d_000c, 0, 0xffff_fffc, 0xffff_ffff], 56, NOTHING),
    ([0x000d_000c, 0, 0xffff_ffd0, 0xffff_ffff], 56, NOTHING),
];

#[test]
fn the_ana_log_is_read_from_any_offset(rt: HostRuntime) {
    let c = controller();
    let world = World::new(&[1, 1], &[], &[1]);
    for (dwords, len, fields) in READS.iter() {
        let mut ev = Events::new(0, 0);
        let mut to = [0xee; 4096];
        let e = log_entry(dwords, *len as u32);
        assert_eq!(rt; check_log(&e), SUCCESS, "{dwords:?}");
        if let Some(part) = to.get_mut(..*len) {
            if check_log(&e) == SUCCESS && part.len() == e.sgl_len as usize {
                write_log(&c, &mut ev, &e, &mut WorldLook::new(&world), part);
            }
            assert_eq!(rt; first_wrong(part, *fields), None, "{dwords:?}");
        }
    }
}

// NSIDs 3 and 8 are enabled in group 1, NSIDs 2 and 6 in group 2, NSID 9 in group 5, NSIDs 1 and 7 in
// group 128; 4 is off, and 5 isn't configured.
const SLOTS: [u8; 9] = [128, 2, 1, OFF, NONE, 2, 128, 1, 5];

// Made are groups 1 (optimized), 2 (inaccessible), 3 (persistent loss), 127 (non-optimized) and 128
// (change). Group 5 isn't made, and so inaccessible.
fn states() -> [u8; 128] {
    let mut states = [0; 128];
    states[0] = 1;
    states[1] = 3;
    states[2] = 4;
    states[126] = 2;
    states[127] = 15;
    states
}

// The change count 0102030405060708h.
const CHANGES: u64 = 0x0102_0304_0506_0708;

const COUNT: &[u8] = &[8, 7, 6, 5, 4, 3, 2, 1];

const MIXED: Fields<'static> = &[
    ("change count", 0, COUNT),
    ("number of groups", 8, &[6, 0]),
    ("group", 16, &[1, 0, 0, 0]),
    ("number of NSIDs", 20, &[2, 0, 0, 0]),
    ("change count", 24, COUNT),
    ("state", 32, &[1]),
    ("NSIDs", 48, &[3, 0, 0, 0, 8, 0, 0, 0]),
    ("group", 56, &[2, 0, 0, 0]),
    ("number of NSIDs", 60, &[2, 0, 0, 0]),
    ("change count", 64, COUNT),
    ("state", 72, &[3]),
    ("NSIDs", 88, &[2, 0, 0, 0, 6, 0, 0, 0]),
    ("group", 96, &[3, 0, 0, 0]),
    ("number of NSIDs", 100, &[0, 0, 0, 0]),
    ("change count", 104, COUNT),
    ("state", 112, &[4]),
    ("group", 128, &[5, 0, 0, 0]),
    ("number of NSIDs", 132, &[1, 0, 0, 0]),
    ("change count", 136, COUNT),
    ("state", 144, &[3]),
    ("NSIDs", 160, &[9, 0, 0, 0]),
    ("group", 164, &[127, 0, 0, 0]),
    ("number of NSIDs", 168, &[0, 0, 0, 0]),
    ("change count", 172, COUNT),
    ("state", 180, &[2]),
    ("group", 196, &[128, 0, 0, 0]),
    ("number of NSIDs", 200, &[2, 0, 0, 0]),
    ("change count", 204, COUNT),
    ("state", 212, &[15]),
    ("NSIDs", 228, &[1, 0, 0, 0, 7, 0, 0, 0]),
];

const MIXED_GROUPS: Fields<'static> = &[
    ("change count", 0, COUNT),
    ("number of groups", 8, &[6, 0]),
    ("group", 16, &[1, 0, 0, 0]),
    ("change count", 24, COUNT),
    ("state", 32, &[1]),
    ("group", 48, &[2, 0, 0, 0]),
    ("change count", 56, COUNT),
    ("state", 64, &[3]),
    ("group", 80, &[3, 0, 0, 0]),
    ("change count", 88, COUNT),
    ("state", 96, &[4]),
    ("group", 112, &[5, 0, 0, 0]),
    ("change count", 120, COUNT),
    ("state", 128, &[3]),
    ("group", 144, &[127, 0, 0, 0]),
    ("change count", 152, COUNT),
    ("state", 160, &[2]),
    ("group", 176, &[128, 0, 0, 0]),
    ("change count", 184, COUNT),
    ("state", 192, &[15]),
];

#[test]
fn groups_are_listed_with_their_members(rt: HostRuntime) {
    let c = controller();
    let states = states();
    let mut world = World::new(&SLOTS, &[], &states);
    world.ana_count = CHANGES;
    let mut look = WorldLook::new(&world);
    let mut to = [0xee; 512];
    ana_page(&c, false, 0, &mut look, &mut to);
    assert_eq!(rt; first_wrong(&to, MIXED), None, "with members");
    ana_page(&c, true, 0, &mut look, &mut to);
    assert_eq!(rt; first_wrong(&to, MIXED_GROUPS), None, "groups alone");
    let mut member = [0xee; 4];
    ana_page(&c, false, 232, &mut look, &mut member);
    assert_eq!(rt; member, [7, 0, 0, 0], "the last member");
    ana_page(&c, false, 236, &mut look, &mut member);
    assert_eq!(rt; member, [0, 0, 0, 0], "past the end");
}

// Five groups that are made and have no enabled namespace.
const MADE_GROUPS: Fields<'static> = &[
    ("number of groups", 8, &[5, 0]),
    ("group", 16, &[1, 0, 0, 0]),
    ("state", 32, &[1]),
    ("group", 48, &[2, 0, 0, 0]),
    ("state", 64, &[3]),
    ("group", 80, &[3, 0, 0, 0]),
    ("state", 96, &[4]),
    ("group", 112, &[127, 0, 0, 0]),
    ("state", 128, &[2]),
    ("group", 144, &[128, 0, 0, 0]),
    ("state", 160, &[15]),
];

#[test]
fn made_groups_are_listed_without_members(rt: HostRuntime) {
    let states = states();
    let world = World::new(&[NONE, OFF], &[], &states);
    let mut to = [0xee; 512];
    ana_page(
        &controller(),
        false,
        0,
        &mut WorldLook::new(&world),
        &mut to,
    );
    assert_eq!(rt; first_wrong(&to, MADE_GROUPS), None);
}

// No namespace and no group; group 1 alone; and 2,048 namespaces in a group that isn't made.
#[test]
fn the_smallest_and_the_largest_ana_log(rt: HostRuntime) {
    let c = controller();
    let mut ev = Events::new(0, 0);
    let mut to = [0xee; 4096];
    let nothing = World::new(&[NONE, OFF], &[], &[]);
    let status = read_log(&c, &mut ev, 0x0c, 0, &mut WorldLook::new(&nothing), &mut to);
    assert_eq!(rt; (status, first_wrong(&to, NOTHING)), (0, None));
    let empty = World::new(&[NONE, OFF], &[], &[1]);
    let status = read_log(&c, &mut ev, 0x0c, 0, &mut WorldLook::new(&empty), &mut to);
    assert_eq!(rt; (status, first_wrong(&to, GROUP_1_ALONE)), (0, None));
    let slots = [77; 2048];
    let full = World::new(&slots, &[], &[]);
    let mut look = WorldLook::new(&full);
    for (offset, first, count) in [
        (48, 1, 1024),
        (52, 2, 1024),
        (4144, 1025, 1024),
        (8236, 2048, 1),
        (8240, 0, 0),
    ] {
        let status = read_log(&c, &mut ev, 0x0c, offset, &mut look, &mut to);
        let wrong = first_uncounted(&to, first, count);
        assert_eq!(rt; (status, wrong), (0, None), "from {offset}");
    }
}
