use super::*;
use std::test::Fail;

#[test]
fn a_write_entry_and_its_bytes(rt: HostRuntime) {
    let mut bytes = [0; 64];
    bytes[..8].copy_from_slice(&[0x01, 0x40, 0x01, 0x00, 0x01, 0x00, 0x00, 0x00]);
    bytes[33] = 0x10;
    bytes[48] = 7;
    let e = read_sqe(&bytes);
    assert_eq!(rt; e.opcode, WRITE);
    assert_eq!(rt; e.flags, 0x40);
    assert_eq!(rt; e.cid, 1);
    assert_eq!(rt; e.nsid, 1);
    assert_eq!(rt; e.sgl_len, 4096);
    assert_eq!(rt; e.cdw12, 7);
    assert_eq!(rt; data_len(&e), 4096);
    assert_eq!(rt; write_sqe(&e), bytes);
}

#[test]
fn directions_of_opcodes(rt: HostRuntime) {
    let mut e = read_sqe(&[0; 64]);
    e.sgl_len = 8;
    for (opcode, nsid, want, len) in [
        (0x00, 1, Direction::Nothing, 0),
        (0x01, 1, Direction::ToController, 8),
        (0x02, 1, Direction::ToHost, 0),
        (0x0b, 1, Direction::Both, 0),
        (0x7f, 0x101, Direction::ToController, 8),
        (0x7f, 0x104, Direction::Nothing, 0),
    ] {
        e.opcode = opcode;
        e.nsid = nsid;
        assert_eq!(rt; direction(&e), want, "opcode {opcode}, NSID {nsid}");
        assert_eq!(rt; data_len(&e), len, "opcode {opcode}, NSID {nsid}");
    }
    assert_eq!(rt; fctype(&e), 4);
}

#[test]
fn a_completion_and_its_bytes(rt: HostRuntime) {
    let bytes = [
        0x10, 0x00, 0x01, 0x00, 0x00, 0x00, 0x00, 0x00, 0x00, 0x00, 0x02, 0x00, 0x03, 0x00, 0x04,
        0x83,
    ];
    let c = read_cqe(&bytes);
    assert_eq!(rt; c.result, 0x10010);
    assert_eq!(rt; c.sq_id, 2);
    assert_eq!(rt; c.cid, 3);
    assert_eq!(rt; c.status, 0x8304);
    assert_eq!(rt; write_cqe(&c), bytes);
}

#[test]
fn the_parts_of_connect_data(rt: HostRuntime) {
    let mut bytes = [0xee; 1024];
    bytes[..16].copy_from_slice(b"0123456789abcdef");
    bytes[16..18].copy_from_slice(&[0x34, 0x12]);
    bytes[256..512].copy_from_slice(&[b's'; 256]);
    bytes[512..768].copy_from_slice(&[b'h'; 256]);
    let data = read_connect(&bytes);
    assert_eq!(rt; data.host_id, *b"0123456789abcdef");
    assert_eq!(rt; data.cntlid, 0x1234);
    assert_eq!(rt; data.subnqn, [b's'; 256]);
    assert_eq!(rt; data.hostnqn, [b'h'; 256]);
}

#[test]
fn the_fields_of_fabrics_commands(rt: HostRuntime) {
    let mut bytes = [0; 64];
    bytes[40..56].copy_from_slice(&[
        0x01, 0x02, 0x03, 0x04, 0x05, 0x06, 0x07, 0x08, 0x09, 0x0a, 0x0b, 0x0c, 0x0d, 0x0e, 0x0f,
        0x10,
    ]);
    let e = read_sqe(&bytes);
    assert_eq!(rt; record_format(&e), 0x0201);
    assert_eq!(rt; qid(&e), 0x0403);
    assert_eq!(rt; queue_size(&e), 0x0605);
    assert_eq!(rt; attributes(&e), 0x07);
    assert_eq!(rt; keep_alive(&e), 0x0c0b_0a09);
    assert!(rt; is_long_property(&e));
    assert_eq!(rt; property_offset(&e), 0x0807_0605);
    assert_eq!(rt; property_value(&e), 0x100f_0e0d_0c0b_0a09);
}

const ROW: NsRow = NsRow {
    disk: 3,
    shift: 12,
    blocks: 4096,
    group: 1,
    uuid: [7; 16],
    nguid: [0; 16],
};

// What a look tells of the configuration: positions are out of use, the NSID and the group are as given.
fn states<L: Look>(look: &mut L, at: u32) -> (bool, Seen, Ana, bool, u16) {
    (
        look.ready(9),
        look.ns(9, at),
        look.ana(9, at),
        look.group_made(9, at),
        look.bars(9, 9, at, WRITE),
    )
}

// What a look tells of changes, and the marks.
fn counts<L: Look>(look: &mut L, at: u32) -> [u64; 6] {
    [
        u64::from(look.serial()),
        u64::from(look.ns_stamp(9, at)),
        u64::from(look.ana_stamp(9, 9)),
        look.ana_count(),
        look.group_count(9, 9, at),
        u64::from(look.marks(9, at)),
    ]
}

#[test]
fn a_look_at_one_namespace(rt: HostRuntime) {
    let row = OneRow {
        ready: true,
        seen: Seen::On(ROW),
        ana: Ana::Changing,
        bars: 0x40,
        serial: 3,
        ns_stamp: 1,
        ana_stamp: 2,
        ana_count: 5,
    };
    let mut look = OneLook::new(&row);
    assert_eq!(rt;
        states(&mut look, 1),
        (true, Seen::On(ROW), Ana::Changing, true, 0x40)
    );
    assert_eq!(rt;
        states(&mut look, 2),
        (true, Seen::NotConfigured, Ana::Inaccessible, false, 0x40)
    );
    assert_eq!(rt; counts(&mut look, 1), [3, 1, 2, 5, 5, 0]);
    assert_eq!(rt; counts(&mut look, 2), [3, 0, 2, 5, 5, 0]);
    let offers = look.offers();
    assert_eq!(rt; offers.nsids, 2048);
    assert_eq!(rt; offers.oncs, 8);
    assert_eq!(rt; offers.nwpc, 0);
    assert_eq!(rt; offers.rescap, 0);
}

#[test]
fn the_controller_of_a_simple_plan_is_ready(rt: HostRuntime) -> Result<(), Fail> {
    let none = Controllers::new(rt.alloc())?;
    let one = Controllers::simple(rt.alloc())?;
    for (number, want) in [(0, false), (1, true), (2, false), (65_535, false)] {
        assert!(rt; !ready(&none, number), "{number} of none");
        assert_eq!(rt; ready(&one, number), want, "{number} of one");
    }
    Ok(())
}

const DISABLED: ControllerRow = ControllerRow {
    ctrl: Ctrl {
        bound: Bound {
            ctrl: 1,
            qid: 0,
            sub: 2,
            port: 3,
        },
        since: 0,
        subnqn: [0; 256],
        serial: [b'0'; 20],
        model_name: [b' '; 40],
    },
    host: [0; 256],
    cc: 0x0046_0001,
    csts: 0,
    qids: 0,
};

#[test]
fn a_controller_that_is_added_and_changed(rt: HostRuntime) -> Result<(), Fail> {
    let mut controllers = Controllers::new(rt.alloc())?;
    controllers.add(DISABLED);
    assert!(rt; !ready(&controllers, 1));
    let mut row = DISABLED;
    row.csts = 1;
    controllers.put(0, row);
    assert!(rt; ready(&controllers, 1));
    assert_eq!(rt; controllers.rows().len(), 1);
    Ok(())
}
