use crate::log_rows::read_log;
use crate::{World, WorldLook, controller};
use async_events::{Events, Log, features};
use sqe_cqe::{Sqe, read_sqe};

// A namespace notice and an ANA notice, as results of little-endian bytes 02 00 04 00 and 02 03 0c 00.
const NAMESPACE: u32 = 2 + 4 * 65536;

const ANA: u32 = 2 + 3 * 256 + 12 * 65536;

// What is then seen: the serial of the last change of NSID 2, of the last ANA change, and of the last
// published change; which logs are read after catching up (4, 12, or 16 for both, 0 for none); the
// event that a poll gives.
const STEPS: &[(u32, u32, u32, u8, Option<(u16, u32)>)] = &[
    (0, 0, 0, 0, None),
    (1, 0, 1, 0, Some((13, NAMESPACE))),
    (1, 0, 1, 0, None),
    (2, 0, 2, 0, None),
    (2, 0, 3, 4, None),
    (4, 0, 4, 0, Some((12, NAMESPACE))),
    (4, 5, 5, 0, Some((11, ANA))),
    (6, 6, 6, 0, None),
    (6, 6, 6, 16, None),
    (7, 8, 8, 0, Some((10, NAMESPACE))),
    (7, 8, 8, 0, None),
];

#[test]
fn events_come_as_changes_do(rt: HostRuntime) {
    let c = controller();
    let mut ev = Events::new(0, 0);
    for (cid, status) in [
        (10, 0),
        (11, 0),
        (12, 0),
        (13, 0),
        (14, 0x820a),
        (15, 0x820a),
    ] {
        assert_eq!(rt; ev.request(cid), status, "request {cid}");
    }
    for (at, (ns, ana, serial, log, event)) in STEPS.iter().enumerate() {
        let stamps = [0, *ns];
        let mut world = World::new(&[1, 1], &stamps, &[1]);
        world.ana_stamp = *ana;
        world.serial = *serial;
        ev.catch_up(&c, &mut WorldLook::new(&world));
        if *log == 4 || *log == 16 {
            ev.read_done(Log::Changed, *serial);
            assert_eq!(rt; ev.cleared(), *serial);
        }
        if *log == 12 || *log == 16 {
            ev.read_done(Log::Ana, *serial);
        }
        assert_eq!(rt; ev.take(), *event, "step {at}");
    }
    // the ANA notice of serial 8 is still pending, and the last request that comes is the first answered
    assert_eq!(rt; ev.request(20), 0);
    assert_eq!(rt; ev.request(21), 0);
    assert_eq!(rt; ev.take(), Some((21, ANA)));
    assert_eq!(rt; ev.take(), None);
}

// Opcode, CDW10, CDW11, SGL length, status, result; one after another on one controller.
const FEATURES: &[(u8, u32, u32, u32, u16, u32)] = &[
    (0x0a, 0x0f, 0, 0, 0, 5000),
    (0x0a, 0x0b, 0, 0, 0, 0x0900),
    (0x0a, 0x07, 0, 0, 0, 0x007f_007f),
    (0x09, 0x07, 0xffff_0000, 0, 0x8004, 0),
    (0x09, 0x07, 0x0000_ffff, 0, 0x8004, 0),
    (0x09, 0x07, 0xffff_ffff, 0, 0x8004, 0),
    (0x09, 0x07, 0xfffe_fffe, 0, 0, 0x007f_007f),
    (0x09, 0x07, 0, 0, 0, 0x007f_007f),
    (0x09, 0x0b, 0x0200, 0, 0x8004, 0),
    (0x09, 0x0b, 0x0901, 0, 0x8004, 0),
    (0x09, 0x0b, 0x8000_0900, 0, 0x8004, 0),
    (0x0a, 0x0b, 0, 0, 0, 0x0900),
    (0x09, 0x0b, 0x0100, 4, 0x801e, 0),
    (0x09, 0x0b, 0x0100, 0, 0, 0),
    (0x0a, 0x0b, 0, 0, 0, 0x0100),
    (0x09, 0x0b, 0x0800, 0, 0, 0),
    (0x0a, 0x0b, 0, 0, 0, 0x0800),
    (0x09, 0x0b, 0, 0, 0, 0),
    (0x0a, 0x0b, 0, 0, 0, 0),
    (0x09, 0x0b, 0x0900, 0, 0, 0),
    (0x0a, 0x0b, 0, 0, 0, 0x0900),
    (0x09, 0x0f, 120_000, 0, 0, 0),
    (0x0a, 0x8000_000f, 0, 0, 0, 120_000),
    (0x09, 0x0f, 90_000, 4, 0x801e, 0),
    (0x0a, 0x0f, 0, 0, 0, 120_000),
    (0x09, 0x8000_000f, 90_000, 0, 0, 0),
    (0x0a, 0x0f, 0, 0, 0, 90_000),
    (0x09, 0x07, 0x0000_ffff, 4, 0x801e, 0),
    (0x0a, 0x07, 0xffff_ffff, 0, 0, 0x007f_007f),
    (0x09, 0x0b, 0xffff_ffff, 0, 0x8004, 0),
    (0x09, 0x0b, 0x0b00, 0, 0x8004, 0),
    (0x0a, 0x0b, 0, 0, 0, 0x0900),
    (0x09, 0x06, 1, 0, 0x8004, 0),
    (0x0a, 0x06, 0, 0, 0x8004, 0),
    (0x0a, 0x06, 0, 1, 0x801e, 0),
    (0x08, 0x0f, 0, 0, 0x8002, 0),
    (0x08, 0x0f, 0, 1, 0x8002, 0),
];

fn entry(opcode: u8, cdw10: u32, cdw11: u32, len: u32) -> Sqe {
    let mut e = read_sqe(&[0; 64]);
    e.opcode = opcode;
    e.cdw10 = cdw10;
    e.cdw11 = cdw11;
    e.sgl_len = len;
    e
}

#[test]
fn features_are_set_and_got(rt: HostRuntime) {
    let mut ev = Events::new(3, 5000);
    for (at, (opcode, cdw10, cdw11, len, status, result)) in FEATURES.iter().enumerate() {
        let e = entry(*opcode, *cdw10, *cdw11, *len);
        assert_eq!(rt; features(&mut ev, &e), (*status, *result), "row {at}");
    }
}

#[test]
fn a_kind_that_is_off_is_not_raised(rt: HostRuntime) {
    let c = controller();
    let mut ev = Events::new(0, 0);
    let _waits = ev.request(1);
    for (bits, serial, event) in [
        (0x0800, 1, None),
        (0x0900, 1, None),
        (0x0900, 2, Some((1, NAMESPACE))),
    ] {
        let _set = features(&mut ev, &entry(0x09, 0x0b, bits, 0));
        let stamps = [serial];
        let mut world = World::new(&[1], &stamps, &[1]);
        world.serial = serial;
        ev.catch_up(&c, &mut WorldLook::new(&world));
        assert_eq!(rt; ev.take(), event, "bits {bits} at {serial}");
    }
}

// Serials as above; dword 10 of a log read of four bytes (0 for none); the event that a poll then
// gives.
const LOG_STEPS: &[(u32, u32, u32, u32, Option<(u16, u32)>)] = &[
    (0, 0, 0, 0x0004, None),
    (1, 0, 1, 0, Some((13, NAMESPACE))),
    // a read that retains unmasks nothing, nor does one of the other log
    (1, 0, 1, 0x8004, None),
    (2, 0, 2, 0, None),
    (3, 0, 3, 0x000c, None),
    (4, 0, 4, 0, None),
    // what changed before the read is no news after it
    (4, 0, 4, 0x0004, None),
    (5, 0, 5, 0, Some((12, NAMESPACE))),
    (5, 0, 5, 0x0004, None),
    // pending before the read, it stays so
    (6, 0, 6, 0x0004, Some((11, NAMESPACE))),
    // the read left the kind unmasked
    (7, 8, 8, 0, Some((10, NAMESPACE))),
];

#[test]
fn log_reads_unmask_their_kind(rt: HostRuntime) {
    let c = controller();
    let mut ev = Events::new(0, 0);
    for cid in [10, 11, 12, 13] {
        assert_eq!(rt; ev.request(cid), 0, "request {cid}");
    }
    for (at, (ns, ana, serial, cdw10, event)) in LOG_STEPS.iter().enumerate() {
        let stamps = [0, *ns];
        let mut world = World::new(&[1, 1], &stamps, &[1]);
        world.ana_stamp = *ana;
        world.serial = *serial;
        let mut look = WorldLook::new(&world);
        if *cdw10 != 0 {
            assert_eq!(rt; read_log(&c, &mut ev, *cdw10, 0, &mut look, &mut [0; 4]), 0);
        }
        ev.catch_up(&c, &mut look);
        assert_eq!(rt; ev.take(), *event, "step {at}");
    }
    // the ANA change of serial 8 is still to be told
    assert_eq!(rt; ev.request(20), 0);
    assert_eq!(rt; ev.take(), Some((20, ANA)));
}
