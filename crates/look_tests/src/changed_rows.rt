use crate::log_rows::read_log;
use crate::{Fields, World, WorldLook, controller, first_uncounted, first_wrong};
use async_events::Events;
use log_pages::changed_page;

// Namespaces 1 to `last` were enabled and disabled, one after another: the last change of NSID n is at
// serial 2n.
fn stamps_up_to(last: usize) -> [u32; 2048] {
    let mut stamps = [0; 2048];
    for at in 0..2048 {
        if at < last {
            stamps[at] = 2 * (at as u32 + 1);
        }
    }
    stamps
}

// How many namespaces were handled, dword 10 of the read without its count, and what is listed: so
// many NSIDs from one on, or too many of them.
const LONG: &[(u32, u32, Option<(u32, usize)>)] = &[
    (0, 0x8004, Some((1, 0))),
    (1023, 0x8004, Some((1, 1023))),
    (1024, 0x8004, Some((1, 1024))),
    (1024, 0x8004, Some((1, 1024))),
    (1025, 0x8004, None),
    (1025, 0x8004, None),
    (1025, 0x0004, None),
    (1025, 0x0004, Some((1, 0))),
    (1025, 0x8004, Some((1, 0))),
    (1026, 0x8004, Some((1026, 1))),
    (2048, 0x0004, Some((1026, 1023))),
    (2048, 0x0004, Some((1, 0))),
];

const TOO_MANY: Fields<'static> = &[("NSID", 0, &[0xff, 0xff, 0xff, 0xff])];

#[test]
fn a_changed_list_holds_1024(rt: HostRuntime) {
    let c = controller();
    let mut ev = Events::new(0, 0);
    let mut to = [0xee; 4096];
    for (at, (last, cdw10, listed)) in LONG.iter().enumerate() {
        let stamps = stamps_up_to(*last as usize);
        let mut world = World::new(&[], &stamps, &[1]);
        world.serial = last.wrapping_mul(2);
        let status = read_log(&c, &mut ev, *cdw10, 0, &mut WorldLook::new(&world), &mut to);
        let wrong = match listed {
            Some((first, count)) => first_uncounted(&to, *first, *count),
            None => first_wrong(&to, TOO_MANY),
        };
        assert_eq!(rt; (status, wrong), (0, None), "read {at}");
    }
}

// The serials of the last changes of NSIDs 1, 2 and 3, the serial of the last published change, dword
// 10 of the read without its count, its offset, and the first eight bytes from there on.
const READS: &[([u32; 3], u32, u32, u64, [u8; 8])] = &[
    // the controller connected at serial 3: what changed before isn't listed
    ([3, 2, 0], 3, 0x8004, 0, [0, 0, 0, 0, 0, 0, 0, 0]),
    ([5, 2, 0], 5, 0x8004, 0, [1, 0, 0, 0, 0, 0, 0, 0]),
    ([5, 6, 0], 6, 0x8004, 0, [1, 0, 0, 0, 2, 0, 0, 0]),
    ([5, 6, 0], 6, 0x8004, 4, [2, 0, 0, 0, 0, 0, 0, 0]),
    ([5, 6, 0], 6, 0x8104, 8, [0, 0, 0, 0, 0, 0, 0, 0]),
    // a read that clears shows the list, from its offset on, and empties all of it
    ([5, 6, 0], 6, 0x0004, 4, [2, 0, 0, 0, 0, 0, 0, 0]),
    ([5, 6, 0], 6, 0x8004, 0, [0, 0, 0, 0, 0, 0, 0, 0]),
    ([5, 6, 7], 8, 0x0004, 4096, [0, 0, 0, 0, 0, 0, 0, 0]),
    ([5, 6, 7], 8, 0x8004, 0, [0, 0, 0, 0, 0, 0, 0, 0]),
    ([5, 6, 9], 9, 0x8004, u64::MAX - 3, [0, 0, 0, 0, 0, 0, 0, 0]),
    ([5, 6, 9], 9, 0x0004, u64::MAX - 3, [0, 0, 0, 0, 0, 0, 0, 0]),
    ([5, 6, 9], 9, 0x8004, 0, [0, 0, 0, 0, 0, 0, 0, 0]),
    // disabled, drained and enabled between two reads: listed once
    ([11, 6, 9], 11, 0x8004, 0, [1, 0, 0, 0, 0, 0, 0, 0]),
    // the order is that of the numbers, and a read of the other log clears nothing here
    ([11, 6, 10], 11, 0x8004, 0, [1, 0, 0, 0, 3, 0, 0, 0]),
    ([11, 12, 10], 12, 0x8004, 0, [1, 0, 0, 0, 2, 0, 0, 0]),
    ([11, 12, 10], 12, 0x000c, 64, [0, 0, 0, 0, 0, 0, 0, 0]),
    ([11, 12, 10], 12, 0x8004, 4, [2, 0, 0, 0, 3, 0, 0, 0]),
];

#[test]
fn a_changed_list_is_of_what_changed_since(rt: HostRuntime) {
    let c = controller();
    let mut ev = Events::new(3, 0);
    for (at, (stamps, serial, cdw10, offset, bytes)) in READS.iter().enumerate() {
        let mut world = World::new(&[1, 1, 1], stamps, &[1]);
        world.serial = *serial;
        let mut to = [0xee; 8];
        let mut look = WorldLook::new(&world);
        let status = read_log(&c, &mut ev, *cdw10, *offset, &mut look, &mut to);
        assert_eq!(rt; (status, to), (0, *bytes), "read {at}");
    }
}

#[test]
fn a_changed_page_is_whole(rt: HostRuntime) {
    let world = World::new(&[], &[4, 0, 5, 6], &[1]);
    let mut page = [0xee; 4096];
    changed_page(&controller(), 4, &mut WorldLook::new(&world), &mut page);
    let listed: Fields<'static> = &[("NSID", 0, &[3, 0, 0, 0]), ("NSID", 4, &[4, 0, 0, 0])];
    assert_eq!(rt; first_wrong(&page, listed), None);
}
