use crate::status_rows::{SLOTS, identify_entry};
use admin_identify::{check_identify, write_identify};
use look_pages::put;
use look_tests::{Fields, World, WorldLook, controller, first_uncounted, first_wrong};
use sqe_cqe::Ctrl;

// Writes a page over bytes of an earlier one, and tells the status.
fn read_page(
    c: &Ctrl,
    cdw10: u32,
    nsid: u32,
    look: &mut WorldLook<'_>,
    page: &mut [u8; 4096],
) -> u16 {
    let e = identify_entry(cdw10, nsid, 4096);
    *page = [0xee; 4096];
    write_identify(c, &e, look, page);
    check_identify(c, &e, look)
}

// Controller 0304h of the subsystem `testnqn`.
const CONTROLLER: Fields<'static> = &[
    ("SN", 4, b"5aefdbbc0a7be8e7    "),
    ("MN", 24, b"Linux                                   "),
    ("FR", 64, b"1.0     "),
    ("CMIC", 76, &[0x0b]),
    ("MDTS", 77, &[5]),
    ("CNTLID", 78, &[4, 3]),
    ("VER", 80, &[0, 4, 1, 0]),
    ("OAES", 92, &[0, 9, 0, 0]),
    ("CNTRLTYPE", 111, &[1]),
    ("AERL", 259, &[3]),
    ("LPA", 261, &[4]),
    ("KAS", 320, &[10, 0]),
    ("ANATT", 342, &[10]),
    ("ANACAP", 343, &[0x1f]),
    ("ANAGRPMAX", 344, &[128, 0, 0, 0]),
    ("NANAGRPID", 348, &[128, 0, 0, 0]),
    ("SQES", 512, &[0x66]),
    ("CQES", 513, &[0x44]),
    ("MAXCMD", 514, &[128, 0]),
    ("NN", 516, &[0, 8, 0, 0]),
    ("ONCS", 520, &[8, 0]),
    ("SGLS", 536, &[1, 0, 0, 0]),
    ("MNAN", 540, &[0, 8, 0, 0]),
    ("SUBNQN", 768, b"testnqn"),
    ("IOCCSZ", 1792, &[4, 0, 0, 0]),
    ("IORCSZ", 1796, &[1, 0, 0, 0]),
];

#[test]
fn the_page_of_a_controller(rt: HostRuntime) {
    let mut c = controller();
    c.bound.ctrl = 0x0304;
    put(&mut c.subnqn, 0, b"testnqn");
    put(&mut c.serial, 0, b"5aefdbbc0a7be8e7");
    put(&mut c.model_name, 0, b"Linux");
    let world = World::new(&SLOTS, &[], &[1]);
    let mut page = [0; 4096];
    let status = read_page(&c, 0x01, 0, &mut WorldLook::new(&world), &mut page);
    assert_eq!(rt; (status, first_wrong(&page, CONTROLLER)), (0, None));
}

const NGUID: [u8; 16] = [
    0xef, 0x90, 0x68, 0x9c, 0x6c, 0x46, 0xd4, 0x4c, 0x89, 0xc1, 0x40, 0x67, 0x80, 0x13, 0x09, 0xa8,
];

const UUID: [u8; 16] = [
    0x55, 0x0e, 0x84, 0x00, 0xe2, 0x9b, 0x41, 0xd4, 0xa7, 0x16, 0x44, 0x66, 0x55, 0x44, 0x00, 0x00,
];

// A number of blocks in eight bytes: 16, and none.
const SIXTEEN: &[u8] = &[16, 0, 0, 0, 0, 0, 0, 0];

const ZERO: &[u8] = &[0, 0, 0, 0, 0, 0, 0, 0];

// The code of the group's state, and the blocks in use.
const IN_USE: &[(u8, &[u8])] = &[
    (1, SIXTEEN),
    (2, SIXTEEN),
    (3, ZERO),
    (4, ZERO),
    (15, SIXTEEN),
];

#[test]
fn a_namespace_in_each_ana_state(rt: HostRuntime) {
    let c = controller();
    let mut page = [0; 4096];
    for (code, used) in IN_USE.iter() {
        let states = [1, 1, *code];
        let mut world = World::new(&[1, 3], &[], &states);
        world.nguid = NGUID;
        world.uuid = UUID;
        let fields: Fields<'_> = &[
            ("NSZE", 0, SIXTEEN),
            ("NCAP", 8, SIXTEEN),
            ("NUSE", 16, *used),
            ("NSFEAT, NLBAF, FLBAS", 24, &[0, 0, 0]),
            ("NMIC", 30, &[1]),
            ("RESCAP", 31, &[0]),
            ("ANAGRPID", 92, &[3, 0, 0, 0]),
            ("NSATTR", 99, &[0]),
            ("NGUID", 104, &NGUID),
            ("EUI64", 120, ZERO),
            ("LBAF0", 128, &[0, 0, 9, 0]),
        ];
        let status = read_page(&c, 0x00, 2, &mut WorldLook::new(&world), &mut page);
        assert_eq!(rt;
            (status, first_wrong(&page, fields)),
            (0, None),
            "state {code}"
        );
    }
}

const NOTHING: Fields<'static> = &[];

const FROM_1: Fields<'static> = &[("NSID", 0, &[1, 0, 0, 0]), ("NSID", 4, &[7, 0, 0, 0])];

const FROM_7: Fields<'static> = &[("NSID", 0, &[7, 0, 0, 0])];

// Dword 10, NSID, and what the page shows, where NSIDs 1 and 7 are enabled.
const SMALL: &[(u32, u32, Fields<'static>)] = &[
    (0x00, 0, NOTHING),
    (0x00, 2, NOTHING),
    (0x00, 9, NOTHING),
    (0x00, 2049, NOTHING),
    (0x00, 0xffff_fffe, NOTHING),
    (0x02, 0, FROM_1),
    (0x02, 1, FROM_7),
    (0x02, 6, FROM_7),
    (0x02, 7, NOTHING),
    (0x02, 2048, NOTHING),
    (0x02, 0xffff_fffd, NOTHING),
];

#[test]
fn off_and_missing_namespaces_show_nothing(rt: HostRuntime) {
    let c = controller();
    let world = World::new(&SLOTS, &[], &[1]);
    let mut look = WorldLook::new(&world);
    let mut page = [0; 4096];
    for (cdw10, nsid, fields) in SMALL.iter() {
        let status = read_page(&c, *cdw10, *nsid, &mut look, &mut page);
        let wrong = first_wrong(&page, *fields);
        assert_eq!(rt; (status, wrong), (0, None), "{cdw10} of {nsid}");
    }
}

// The NSID of the command; the first NSID that is listed, and how many are, where 1 to 1,025 and where
// 1 to 2,048 are enabled.
const LONG: &[(u32, u32, usize, usize)] = &[
    (0, 1, 1024, 1024),
    (1, 2, 1024, 1024),
    (2, 3, 1023, 1024),
    (1023, 1024, 2, 1024),
    (1024, 1025, 1, 1024),
    (1025, 1026, 0, 1023),
    (2047, 2048, 0, 1),
    (2048, 2049, 0, 0),
    (0xffff_fffd, 0, 0, 0),
];

#[test]
fn an_active_list_ends_at_1024(rt: HostRuntime) {
    let c = controller();
    let all = [128; 2048];
    let world = World::new(&all[..1025], &[], &[]);
    let full = World::new(&all, &[], &[]);
    let mut page = [0; 4096];
    for (nsid, first, few, many) in LONG.iter() {
        let status = read_page(&c, 0x02, *nsid, &mut WorldLook::new(&world), &mut page);
        let wrong = first_uncounted(&page, *first, *few);
        assert_eq!(rt; (status, wrong), (0, None), "1,025 above {nsid}");
        let status = read_page(&c, 0x02, *nsid, &mut WorldLook::new(&full), &mut page);
        let wrong = first_uncounted(&page, *first, *many);
        assert_eq!(rt; (status, wrong), (0, None), "2,048 above {nsid}");
    }
}

const UNSET: [u8; 16] = [0; 16];

// One byte is enough to be set.
const LAST_SET: [u8; 16] = [0, 0, 0, 0, 0, 0, 0, 0, 0, 0, 0, 0, 0, 0, 0, 1];

// The UUID and the NGUID of a namespace, and its descriptors: type, length, two zeros, value.
const DESCRIPTORS: &[([u8; 16], [u8; 16], Fields<'static>)] = &[
    (
        UNSET,
        NGUID,
        &[
            ("NIDT, NIDL", 0, &[2, 16, 0, 0]),
            ("NGUID", 4, &NGUID),
            ("NIDT, NIDL, CSI", 20, &[4, 1, 0, 0, 0]),
        ],
    ),
    (
        UUID,
        UNSET,
        &[
            ("NIDT, NIDL", 0, &[3, 16, 0, 0]),
            ("UUID", 4, &UUID),
            ("NIDT, NIDL, CSI", 20, &[4, 1, 0, 0, 0]),
        ],
    ),
    (
        UUID,
        NGUID,
        &[
            ("NIDT, NIDL", 0, &[3, 16, 0, 0]),
            ("UUID", 4, &UUID),
            ("NIDT, NIDL", 20, &[2, 16, 0, 0]),
            ("NGUID", 24, &NGUID),
            ("NIDT, NIDL, CSI", 40, &[4, 1, 0, 0, 0]),
        ],
    ),
    (
        LAST_SET,
        UNSET,
        &[
            ("NIDT, NIDL", 0, &[3, 16, 0, 0]),
            ("UUID", 4, &LAST_SET),
            ("NIDT, NIDL, CSI", 20, &[4, 1, 0, 0, 0]),
        ],
    ),
    (UNSET, UNSET, &[("NIDT, NIDL, CSI", 0, &[4, 1, 0, 0, 0])]),
];

#[test]
fn descriptors_are_of_what_is_set(rt: HostRuntime) {
    let c = controller();
    let mut page = [0; 4096];
    for (at, (uuid, nguid, fields)) in DESCRIPTORS.iter().enumerate() {
        let mut world = World::new(&SLOTS, &[], &[1]);
        world.uuid = *uuid;
        world.nguid = *nguid;
        let status = read_page(&c, 0x03, 7, &mut WorldLook::new(&world), &mut page);
        assert_eq!(rt;
            (status, first_wrong(&page, *fields)),
            (0, None),
            "row {at}"
        );
    }
}
