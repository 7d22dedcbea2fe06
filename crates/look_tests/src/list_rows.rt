use crate::{NONE, OFF, PORT, SUBSYSTEM, World, WorldLook, first_uncounted};
use look_pages::{
    Choice, clear, count_chosen, emit, emit_word, list_part, put, put_byte, put_half, put_long,
    put_word,
};
use sqe_cqe::Bound;
use std::test::Fail;

const QUEUE: Bound = Bound {
    ctrl: 1,
    qid: 0,
    sub: SUBSYSTEM,
    port: PORT,
};

// NSIDs 1, 3 and 7 are enabled, in groups 1, 2 and 1; NSID 2 is off; 5 isn't configured any more.
const SLOTS: [u8; 7] = [1, OFF, 2, NONE, NONE, NONE, 1];

// NSIDs 2, 3, 5 and 7 changed.
const STAMPS: [u32; 7] = [0, 4, 5, 0, 6, 0, 9];

// What is listed, from which offset on, and the first twelve bytes of what is then seen.
const ROWS: &[(Choice, u64, u32, [u8; 12])] = &[
    (
        Choice::Enabled(0),
        0,
        3,
        [1, 0, 0, 0, 3, 0, 0, 0, 7, 0, 0, 0],
    ),
    (
        Choice::Enabled(1),
        0,
        2,
        [3, 0, 0, 0, 7, 0, 0, 0, 0, 0, 0, 0],
    ),
    (
        Choice::Enabled(6),
        0,
        1,
        [7, 0, 0, 0, 0, 0, 0, 0, 0, 0, 0, 0],
    ),
    (
        Choice::Enabled(7),
        0,
        0,
        [0, 0, 0, 0, 0, 0, 0, 0, 0, 0, 0, 0],
    ),
    (
        Choice::InGroup(1),
        0,
        2,
        [1, 0, 0, 0, 7, 0, 0, 0, 0, 0, 0, 0],
    ),
    (
        Choice::InGroup(2),
        0,
        1,
        [3, 0, 0, 0, 0, 0, 0, 0, 0, 0, 0, 0],
    ),
    (
        Choice::Changed(0),
        0,
        4,
        [2, 0, 0, 0, 3, 0, 0, 0, 5, 0, 0, 0],
    ),
    (
        Choice::Changed(0),
        4,
        4,
        [3, 0, 0, 0, 5, 0, 0, 0, 7, 0, 0, 0],
    ),
    (
        Choice::Changed(4),
        0,
        3,
        [3, 0, 0, 0, 5, 0, 0, 0, 7, 0, 0, 0],
    ),
    (
        Choice::Changed(5),
        0,
        2,
        [5, 0, 0, 0, 7, 0, 0, 0, 0, 0, 0, 0],
    ),
    (
        Choice::Changed(9),
        0,
        0,
        [0, 0, 0, 0, 0, 0, 0, 0, 0, 0, 0, 0],
    ),
    (
        Choice::Changed(0),
        12,
        4,
        [7, 0, 0, 0, 0, 0, 0, 0, 0, 0, 0, 0],
    ),
    (
        Choice::Changed(0),
        16,
        4,
        [0, 0, 0, 0, 0, 0, 0, 0, 0, 0, 0, 0],
    ),
    (
        Choice::Changed(0),
        u64::MAX - 3,
        4,
        [0, 0, 0, 0, 0, 0, 0, 0, 0, 0, 0, 0],
    ),
];

#[test]
fn lists_have_the_nsids_that_are_asked_for(rt: HostRuntime) {
    let world = World::new(&SLOTS, &STAMPS, &[1, 2]);
    let mut look = WorldLook::new(&world);
    let mut to = [0xee; 12];
    for (choice, offset, count, bytes) in ROWS.iter() {
        assert_eq!(rt;
            count_chosen(*choice, &QUEUE, &mut look),
            *count,
            "{choice:?}"
        );
        list_part(*choice, &QUEUE, *offset, &mut look, &mut to);
        assert_eq!(rt; to.as_slice(), bytes.as_slice(), "{choice:?} from {offset}");
    }
}

#[test]
fn a_list_ends_at_1024(rt: HostRuntime) -> Result<(), Fail> {
    let mut page = [0xee; 4096];
    for nsids in [1023, 1024, 1025, 2048] {
        let slots = [128; 2048];
        let mut world = World::new(&slots, &[], &[1]);
        world.nsids = nsids;
        let mut look = WorldLook::new(&world);
        list_part(Choice::Enabled(0), &QUEUE, 0, &mut look, &mut page);
        if nsids <= 1024 {
            assert_eq!(rt;
                first_uncounted(&page, 1, nsids as usize),
                None,
                "{nsids} NSIDs"
            );
        } else {
            assert_eq!(rt;
                &page[..4],
                [0xff, 0xff, 0xff, 0xff].as_slice(),
                "{nsids} NSIDs"
            );
            assert_eq!(rt; first_uncounted(&page[4..], 1, 0), None, "{nsids} NSIDs");
        }
    }
    Ok(())
}

#[test]
fn fields_and_parts(rt: HostRuntime) {
    let mut page = [0xee; 16];
    clear(&mut page);
    put_long(&mut page, 0, 0x0102_0304_0506_0708);
    put_word(&mut page, 8, 0x0a0b_0c0d);
    put_half(&mut page, 12, 0xabcd);
    put_byte(&mut page, 14, 7);
    put(&mut page, 3, b"NVM");
    assert_eq!(rt;
        page,
        [
            8, 7, 6, b'N', b'V', b'M', 2, 1, 0x0d, 0x0c, 0x0b, 0x0a, 0xcd, 0xab, 7, 0
        ]
    );
    let mut part = [0; 6];
    emit(&mut part, 2, 0, b"abcd");
    emit_word(&mut part, 2, 6, 0x0403_0201);
    assert_eq!(rt; part, [b'c', b'd', 0, 0, 1, 2]);
}
