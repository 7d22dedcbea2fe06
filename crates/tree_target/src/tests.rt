// A configuration is loaded, edited and drained while a queue holds commands of it.
use super::*;
use configfs_tree::{Attr, Errno, Folder, FolderEdit, Nqn, may_be_disks};
use link_rules::{Edit, LinkEdit};
use mem_bdev::{Buffer, DiskLine, Name};
use sqe_cqe::{FABRICS, Sqe, read_sqe};
use std::alloc::Global;
use std::process::Abort;
use std::test::Fail;

fn name(rt: &impl Abort) -> Nqn {
    Nqn::read(b"s").expect(rt, "an NQN")
}

fn line(rt: &impl Abort, alloc: Global) -> DiskLine {
    let path = Name::copied(alloc, b"/dev/ram0").expect(rt, "memory");
    DiskLine {
        path,
        shift: 9,
        blocks: 16,
    }
}

fn mkdir(folder: Folder) -> Edit {
    Edit::Folder(FolderEdit::Mkdir(folder))
}

fn set(rt: &impl Abort, alloc: Global, folder: Folder, attr: Attr, value: &[u8]) -> Edit {
    let value = Name::copied(alloc, value).expect(rt, "memory");
    Edit::Folder(FolderEdit::Set(folder, attr, value))
}

fn set_space(rt: &impl Abort, alloc: Global, attr: Attr, value: &[u8]) -> Edit {
    set(rt, alloc, Folder::Namespace(name(rt), 1), attr, value)
}

// Makes an edit, of which the reply must be this one.
fn edit(rt: &impl Abort, alloc: Global, target: &mut Target, e: &Edit, reply: Reply) {
    assert!(rt; e.is_fitting());
    let got = target.edit(alloc, 1, e);
    assert_eq!(rt; got.expect(rt, "memory"), reply);
}

// Ends the drain of namespace 1, which may end.
fn end_drain(rt: &impl Abort, target: &mut Target) {
    let sub = name(rt);
    assert!(rt; target.may_end(&sub, 1));
    assert_eq!(rt; target.end_drain(1, &sub, 1), Reply::Ended);
}

// A target over one disk, with one queue and no configuration.
fn empty(rt: &impl Abort, alloc: Global) -> Target {
    let line = line(rt, alloc);
    assert!(rt; line.is_shape());
    let lines = [line];
    assert!(rt; may_be_disks(&lines));
    let loaded = Target::load(alloc, &lines, &[], &[1]);
    loaded.expect(rt, "loaded")
}

#[test]
fn edits_are_made_or_refused(rt: HostRuntime) -> Result<(), Fail> {
    let alloc = rt.alloc();
    let mut target = empty(&rt, alloc);
    let sub = mkdir(Folder::Subsystem(name(&rt)));
    let space = mkdir(Folder::Namespace(name(&rt), 1));
    let path = set_space(&rt, alloc, Attr::DevicePath, b"/dev/ram0");
    let on = set_space(&rt, alloc, Attr::Enable, b"1");
    let off = set_space(&rt, alloc, Attr::Enable, b"0");
    edit(&rt, alloc, &mut target, &space, Reply::Errno(Errno::ENOENT));
    edit(&rt, alloc, &mut target, &sub, Reply::Accepted);
    edit(&rt, alloc, &mut target, &sub, Reply::Errno(Errno::EEXIST));
    edit(&rt, alloc, &mut target, &space, Reply::Accepted);
    edit(&rt, alloc, &mut target, &on, Reply::Errno(Errno::ENOENT));
    edit(&rt, alloc, &mut target, &path, Reply::Accepted);
    assert!(rt; !target.drains(&off));
    edit(&rt, alloc, &mut target, &on, Reply::Accepted);
    assert!(rt; target.drains(&off));
    assert!(rt; !target.drains(&on));
    edit(&rt, alloc, &mut target, &off, Reply::Accepted);
    assert!(rt; !target.drains(&off));
    edit(&rt, alloc, &mut target, &on, Reply::Errno(Errno::EBUSY));
    let end = Call::DrainEnd { line: 1 };
    assert!(rt; !target.lawful(&end, Some(&on)));
    assert!(rt; target.lawful(&end, Some(&off)));
    end_drain(&rt, &mut target);
    assert!(rt; !target.lawful(&end, Some(&off)));
    edit(&rt, alloc, &mut target, &on, Reply::Accepted);
    Ok(())
}

#[test]
fn links_are_edits(rt: HostRuntime) -> Result<(), Fail> {
    let alloc = rt.alloc();
    let mut target = empty(&rt, alloc);
    let link = Edit::Link(LinkEdit::LinkSubsystem(1, name(&rt)));
    let trtype = set(&rt, alloc, Folder::Port(1), Attr::Trtype, b"loop");
    edit(
        &rt,
        alloc,
        &mut target,
        &mkdir(Folder::Subsystem(name(&rt))),
        Reply::Accepted,
    );
    edit(&rt, alloc, &mut target, &link, Reply::Errno(Errno::ENOENT));
    edit(
        &rt,
        alloc,
        &mut target,
        &mkdir(Folder::Port(1)),
        Reply::Accepted,
    );
    edit(&rt, alloc, &mut target, &link, Reply::Errno(Errno::EINVAL));
    edit(&rt, alloc, &mut target, &trtype, Reply::Accepted);
    edit(&rt, alloc, &mut target, &link, Reply::Accepted);
    edit(&rt, alloc, &mut target, &link, Reply::Errno(Errno::EEXIST));
    Ok(())
}

#[test]
fn the_first_refused_edit_of_a_configuration_is_named(rt: HostRuntime) -> Result<(), Fail> {
    let alloc = rt.alloc();
    let line = line(&rt, alloc);
    assert!(rt; line.is_shape());
    let lines = [line];
    assert!(rt; may_be_disks(&lines));
    let sub = mkdir(Folder::Subsystem(name(&rt)));
    let again = mkdir(Folder::Subsystem(name(&rt)));
    let port = mkdir(Folder::Port(1));
    assert!(rt; sub.is_fitting());
    assert!(rt; again.is_fitting());
    assert!(rt; port.is_fitting());
    match Target::load(alloc, &lines, &[port, sub, again], &[1]) {
        Err(LoadError::Refused { edit, errno }) => {
            assert_eq!(rt; edit, 3);
            assert_eq!(rt; errno, Errno::EEXIST);
        }
        _ => assert!(rt; false, "loaded"),
    }
    Ok(())
}

fn status_is(rt: &impl Abort, reply: &Reply, cid: u16, sq_id: u16, status: u16) {
    match reply {
        Reply::Answered(cqe) => {
            assert_eq!(rt; cqe.cid, cid);
            assert_eq!(rt; cqe.sq_id, sq_id);
            assert_eq!(rt; cqe.status, status);
        }
        _ => assert!(rt; false, "no completion"),
    }
}

// A command on the first block of namespace 1.
fn entry(opcode: u8, cid: u16) -> Sqe {
    let mut e = read_sqe(&[0; 64]);
    e.opcode = opcode;
    e.flags = 0x40;
    e.cid = cid;
    e.nsid = 1;
    e.sgl_len = 512;
    e
}

#[test]
fn a_queue_that_is_not_connected_is_refused(rt: HostRuntime) -> Result<(), Fail> {
    let alloc = rt.alloc();
    let mut target = empty(&rt, alloc);
    assert_eq!(rt; target.queues(), 1);
    assert_eq!(rt; target.binding(1).port, 1);
    assert!(rt; target.is_idle(1));
    assert!(rt; !target.is_admin(1));
    let reply = target.submit(1, 0, &entry(0x01, 7));
    status_is(&rt, &reply, 7, 0, 0x8002);
    control(&rt, &mut target, 1, &fabrics(0x04, 0), &[], (0x8002, 0, 0));
    assert_eq!(rt; target.poll(1), Reply::NoEvent);
    assert!(rt;
        !target.lawful(
            &Call::Execute {
                queue: 1,
                number: 0
            },
            None
        )
    );
    Ok(())
}

// A Connect of a queue, and what it gets: status, result and SQ identifier.
#[derive(Clone, Copy)]
struct Ask {
    queue: u32,
    qid: u16,
    size: u16,
    cntlid: u16,
    sub: &'static [u8],
    host: &'static [u8],
    gets: (u16, u64, u16),
}

fn fabrics(kind: u32, len: u32) -> Sqe {
    let mut e = read_sqe(&[0; 64]);
    e.opcode = FABRICS;
    e.flags = 0x40;
    e.cid = 9;
    e.nsid = kind;
    e.sgl_len = len;
    e
}

fn put(rt: &impl Abort, data: &mut [u8; 1024], at: usize, bytes: &[u8]) {
    assert!(rt; at <= 512 && bytes.len() <= 256);
    data[at..at + bytes.len()].copy_from_slice(bytes);
}

// Makes a fabrics command, which must get these: status, result and SQ identifier.
fn control(
    rt: &impl Abort,
    target: &mut Target,
    queue: u32,
    e: &Sqe,
    data: &[u8],
    gets: (u16, u64, u16),
) {
    assert!(rt; e.opcode == FABRICS);
    assert!(rt; data.len() == e.sgl_len as usize);
    assert!(rt; queue >= 1 && queue as usize <= target.queues());
    assert!(rt; target.is_idle(queue));
    let reply = target.control(queue, 0, e, data);
    status_is(rt, &reply, 9, gets.2, gets.0);
    match reply {
        Reply::Answered(cqe) => assert_eq!(rt; cqe.result, gets.1),
        _ => {}
    }
}

fn connect(rt: &impl Abort, target: &mut Target, c: &Ask) {
    let mut e = fabrics(0x01, 1024);
    e.cdw10 = u32::from(c.qid) * 0x1_0000;
    e.cdw11 = u32::from(c.size);
    e.cdw12 = 120_000;
    let mut data = [0; 1024];
    put(rt, &mut data, 16, &c.cntlid.to_le_bytes());
    put(rt, &mut data, 256, c.sub);
    put(rt, &mut data, 512, c.host);
    control(rt, target, c.queue, &e, &data, c.gets);
}

fn connect_all(rt: &impl Abort, target: &mut Target, connects: &[Ask]) {
    for c in connects {
        connect(rt, target, c);
    }
}

// Sets CC of the controller of an admin queue.
fn set_cc(rt: &impl Abort, target: &mut Target, queue: u32, cc: u32) {
    let mut e = fabrics(0x00, 0);
    e.cdw11 = 0x14;
    e.cdw12 = cc;
    control(rt, target, queue, &e, &[], (0, 0, 0));
}

// Reads four bytes of a property, which must be this.
fn get_property(rt: &impl Abort, target: &mut Target, queue: u32, offset: u32, value: u64) {
    let mut e = fabrics(0x04, 0);
    e.cdw11 = offset;
    control(rt, target, queue, &e, &[], (0, value, 0));
}

// Queue 3 as the admin queue of controller 1, and queues 1 and 2 as its I/O queues.
const JOINED: [Ask; 3] = [
    Ask {
        queue: 3,
        qid: 0,
        size: 31,
        cntlid: 0xffff,
        sub: b"s",
        host: b"h",
        gets: (0, 1, 0),
    },
    Ask {
        queue: 1,
        qid: 1,
        size: 127,
        cntlid: 1,
        sub: b"s",
        host: b"h",
        gets: (0, 1, 1),
    },
    Ask {
        queue: 2,
        qid: 2,
        size: 127,
        cntlid: 1,
        sub: b"s",
        host: b"h",
        gets: (0, 1, 2),
    },
];

// A target whose namespace 1 is enabled on the disk, with four queues at a port that links its
// subsystem.
fn configured(rt: &impl Abort, alloc: Global) -> Target {
    let line = line(rt, alloc);
    assert!(rt; line.is_shape());
    let lines = [line];
    assert!(rt; may_be_disks(&lines));
    let edits = [
        mkdir(Folder::Subsystem(name(rt))),
        mkdir(Folder::Namespace(name(rt), 1)),
        mkdir(Folder::Port(1)),
        set_space(rt, alloc, Attr::DevicePath, b"/dev/ram0"),
        set_space(rt, alloc, Attr::Enable, b"1"),
        set(
            rt,
            alloc,
            Folder::Subsystem(name(rt)),
            Attr::AllowAnyHost,
            b"1",
        ),
        set(rt, alloc, Folder::Port(1), Attr::Trtype, b"loop"),
        Edit::Link(LinkEdit::LinkSubsystem(1, name(rt))),
    ];
    let loaded = Target::load(alloc, &lines, &[], &[1, 1, 1, 1]);
    let mut target = loaded.expect(rt, "loaded");
    for e in &edits {
        edit(rt, alloc, &mut target, e, Reply::Accepted);
    }
    target
}

// Submits a capsule's command, which must be held.
fn hold(rt: &impl Abort, target: &mut Target, queue: u32, number: u32, e: &Sqe) {
    assert!(rt; queue >= 1 && queue as usize <= target.queues());
    assert!(rt; target.is_idle(queue));
    assert!(rt; !target.is_admin(queue));
    assert_eq!(rt; target.submit(queue, number, e), Reply::Held);
}

// Executes the first capsule's held command, which must succeed and give these bytes.
fn finish(
    rt: &impl Abort,
    alloc: Global,
    target: &mut Target,
    queue: u32,
    cid: u16,
    sq_id: u16,
    read: &[u8],
) {
    assert!(rt; target.lawful(&Call::Execute { queue, number: 0 }, None));
    assert!(rt; target.is_held(queue, 0));
    assert!(rt; target.takes(queue, 0, 512));
    let room = target.held_len(queue, 0) as usize;
    let mut to = Buffer::with_room(alloc, room).expect(rt, "memory");
    let reply = target.execute(queue, 0, &[7; 512], &mut to);
    status_is(rt, &reply, cid, sq_id, 0);
    assert_eq!(rt; to.bytes(), read);
}

#[test]
fn a_drain_ends_after_the_last_held_command(rt: HostRuntime) -> Result<(), Fail> {
    let alloc = rt.alloc();
    let mut target = configured(&rt, alloc);
    connect_all(&rt, &mut target, &JOINED);
    set_cc(&rt, &mut target, 3, 0x0046_0001);
    let off = set_space(&rt, alloc, Attr::Enable, b"0");
    let end = Call::DrainEnd { line: 1 };
    hold(&rt, &mut target, 1, 0, &entry(0x01, 3));
    hold(&rt, &mut target, 2, 0, &entry(0x02, 4));
    edit(&rt, alloc, &mut target, &off, Reply::Accepted);
    assert!(rt; !target.lawful(&end, Some(&off)));
    finish(&rt, alloc, &mut target, 1, 3, 1, &[]);
    assert!(rt; !target.lawful(&end, Some(&off)));
    assert!(rt; target.is_idle(1));
    assert!(rt; !target.is_admin(1));
    assert!(rt; target.queues() == 4);
    let reply = target.submit(1, 1, &entry(0x02, 5));
    status_is(&rt, &reply, 5, 1, 0x0600);
    finish(&rt, alloc, &mut target, 2, 4, 2, &[7; 512]);
    assert!(rt; target.lawful(&end, Some(&off)));
    end_drain(&rt, &mut target);
    Ok(())
}

// Each is refused, and names the first parameter that isn't valid: the subsystem, the controller
// ID, the size of the queue.
const REFUSED: [Ask; 3] = [
    Ask {
        queue: 3,
        qid: 0,
        size: 31,
        cntlid: 0xffff,
        sub: b"t",
        host: b"h",
        gets: (0x8304, 0x1_0100, 0),
    },
    Ask {
        queue: 3,
        qid: 0,
        size: 31,
        cntlid: 1,
        sub: b"s",
        host: b"h",
        gets: (0x8304, 0x1_0010, 0),
    },
    Ask {
        queue: 3,
        qid: 0,
        size: 0,
        cntlid: 0xffff,
        sub: b"s",
        host: b"h",
        gets: (0x8304, 0x2c, 0),
    },
];

// After queues 1, 2 and 3 are connected: once more, a QID that is connected, QID 129, another host.
const TAKEN: [Ask; 4] = [
    Ask {
        queue: 3,
        qid: 0,
        size: 31,
        cntlid: 0xffff,
        sub: b"s",
        host: b"h",
        gets: (0x8002, 0, 0),
    },
    Ask {
        queue: 4,
        qid: 1,
        size: 127,
        cntlid: 1,
        sub: b"s",
        host: b"h",
        gets: (0x8018, 0, 0),
    },
    Ask {
        queue: 4,
        qid: 129,
        size: 127,
        cntlid: 1,
        sub: b"s",
        host: b"h",
        gets: (0x8304, 0x2a, 0),
    },
    Ask {
        queue: 4,
        qid: 3,
        size: 127,
        cntlid: 1,
        sub: b"s",
        host: b"g",
        gets: (0x8304, 0x1_0010, 0),
    },
];

// Submits a Read on queue 1, which must be refused with this status.
fn refuse_read(rt: &impl Abort, target: &mut Target, status: u16) {
    assert!(rt; target.queues() == 4);
    assert!(rt; target.is_idle(1));
    assert!(rt; !target.is_admin(1));
    let reply = target.submit(1, 0, &entry(0x02, 5));
    status_is(rt, &reply, 5, 1, status);
}

#[test]
fn hosts_connect(rt: HostRuntime) -> Result<(), Fail> {
    let alloc = rt.alloc();
    let mut target = configured(&rt, alloc);
    connect_all(&rt, &mut target, &REFUSED);
    assert!(rt; !target.is_admin(3));
    connect_all(&rt, &mut target, &JOINED);
    assert!(rt; target.is_admin(3));
    assert!(rt; !target.is_admin(1));
    connect_all(&rt, &mut target, &TAKEN);
    let unlink = Edit::Link(LinkEdit::UnlinkSubsystem(1, name(&rt)));
    edit(&rt, alloc, &mut target, &unlink, Reply::Accepted);
    let gone = Edit::Folder(FolderEdit::Rmdir(Folder::Port(1)));
    edit(&rt, alloc, &mut target, &gone, Reply::Errno(Errno::EBUSY));
    Ok(())
}

#[test]
fn a_controller_is_enabled_before_it_serves(rt: HostRuntime) -> Result<(), Fail> {
    let alloc = rt.alloc();
    let mut target = configured(&rt, alloc);
    connect_all(&rt, &mut target, &JOINED);
    refuse_read(&rt, &mut target, 0x8018);
    set_cc(&rt, &mut target, 3, 0x0000_0001);
    get_property(&rt, &mut target, 3, 0x1c, 2);
    refuse_read(&rt, &mut target, 0x8018);
    set_cc(&rt, &mut target, 3, 0);
    set_cc(&rt, &mut target, 3, 0x0046_0001);
    get_property(&rt, &mut target, 3, 0x1c, 1);
    hold(&rt, &mut target, 1, 0, &entry(0x02, 5));
    finish(&rt, alloc, &mut target, 1, 5, 1, &[0; 512]);
    Ok(())
}

// A command on an admin queue, and what it gets: opcode, flags, NSID, dwords 10 and 11, SGL length;
// status and result.
#[derive(Clone, Copy)]
struct Admin(u8, u8, u32, u32, u32, u32, u16, u64);

// Submits a command on queue 3, an admin queue, with room for its data.
#[tactic(auto, using(crate::proofs::Administering::room_short))]
fn submit_admin(
    rt: &impl Abort,
    alloc: Global,
    target: &mut Target,
    row: &Admin,
    cid: u16,
) -> (Reply, Buffer) {
    let mut to = Buffer::with_room(alloc, 4096).expect(rt, "memory");
    let mut e = read_sqe(&[0; 64]);
    e.opcode = row.0;
    e.flags = row.1;
    e.cid = cid;
    e.nsid = row.2;
    e.cdw10 = row.3;
    e.cdw11 = row.4;
    e.sgl_len = row.5;
    assert!(rt; e.sgl_len <= 4096);
    assert!(rt; target.queues() == 4);
    assert!(rt; target.is_idle(3));
    assert!(rt; target.is_admin(3));
    let reply = target.submit_admin(3, 0, &e, &mut to);
    (reply, to)
}

// Each must be answered as its row says.
fn submit_all(rt: &impl Abort, alloc: Global, target: &mut Target, rows: &[Admin]) {
    for (i, row) in rows.iter().enumerate() {
        let (reply, _) = submit_admin(rt, alloc, target, row, 9);
        status_is(rt, &reply, 9, 0, row.6);
        match reply {
            Reply::Answered(cqe) => assert_eq!(rt; cqe.result, row.7, "row {i}"),
            _ => {}
        }
    }
}

const ADMIN: [Admin; 19] = [
    Admin(0x7e, 0x00, 0, 0, 0, 4, 0x8002, 0),
    Admin(0x06, 0x00, 0, 0x55, 0, 4095, 0x8004, 0),
    Admin(0x06, 0x40, 0, 0x55, 0, 4095, 0x801e, 0),
    Admin(0x06, 0x40, 0, 0x55, 0, 4096, 0x8004, 0),
    Admin(0x06, 0x40, 9, 0x03, 0, 4096, 0x8016, 0),
    Admin(0x06, 0x40, 9, 0x00, 0, 4096, 0, 0),
    Admin(0x08, 0x40, 0, 0, 0, 0, 0, 1),
    Admin(0x08, 0x40, 0, 0, 0, 4, 0x801e, 0),
    Admin(0x18, 0x40, 0, 0, 0, 0, 0, 0),
    Admin(0x0a, 0x40, 0, 0x0b, 0, 0, 0, 0x900),
    Admin(0x09, 0x40, 0, 0x0b, 0x200, 0, 0x8004, 0),
    Admin(0x09, 0x40, 0, 0x0b, 0x100, 0, 0, 0),
    Admin(0x0a, 0x40, 0, 0x0b, 0, 0, 0, 0x100),
    Admin(0x0a, 0x40, 0, 0x0f, 0, 0, 0, 120_000),
    Admin(0x09, 0x40, 0, 0x0f, 5_000, 0, 0, 0),
    Admin(0x0a, 0x40, 0, 0x0f, 0, 0, 0, 5_000),
    Admin(0x09, 0x40, 0, 0x07, 0xffff, 0, 0x8004, 0),
    Admin(0x09, 0x40, 0, 0x07, 0x1_0001, 0, 0, 0x007f_007f),
    Admin(0x09, 0x40, 0, 0x55, 0, 0, 0x8004, 0),
];

#[test]
fn admin_commands_are_served(rt: HostRuntime) -> Result<(), Fail> {
    let alloc = rt.alloc();
    let mut target = configured(&rt, alloc);
    connect_all(&rt, &mut target, &JOINED);
    let keep_alive = Admin(0x18, 0x40, 0, 0, 0, 0, 0x8018, 0);
    submit_all(&rt, alloc, &mut target, &[keep_alive]);
    set_cc(&rt, &mut target, 3, 0x0046_0001);
    submit_all(&rt, alloc, &mut target, &ADMIN);
    let list = Admin(0x06, 0x40, 0, 0x02, 0, 4096, 0, 0);
    let (_, to) = submit_admin(&rt, alloc, &mut target, &list, 9);
    assert_eq!(rt; to.len(), 4096);
    assert_eq!(rt; &to.bytes()[..8], [1, 0, 0, 0, 0, 0, 0, 0].as_slice());
    Ok(())
}

// Four event requests with the command identifiers 10 to 13 wait, and a fifth is refused.
fn request_events(rt: &impl Abort, alloc: Global, target: &mut Target) {
    let request = Admin(0x0c, 0x40, 0, 0, 0, 0, 0x820a, 0);
    for cid in 10..14 {
        let (reply, _) = submit_admin(rt, alloc, target, &request, cid);
        assert_eq!(rt; reply, Reply::Waiting);
    }
    submit_all(rt, alloc, target, &[request]);
}

// A poll of queue 3 completes the request with this identifier, with this result.
fn poll_event(rt: &impl Abort, target: &mut Target, cid: u16, value: u64) {
    let reply = target.poll(3);
    status_is(rt, &reply, cid, 0, 0);
    match reply {
        Reply::Answered(cqe) => assert_eq!(rt; cqe.result, value),
        _ => {}
    }
}

// Reads a log on queue 3, of which the front must be these bytes.
fn read_log(rt: &impl Abort, alloc: Global, target: &mut Target, row: &Admin, front: &[u8]) {
    let (reply, to) = submit_admin(rt, alloc, target, row, 9);
    status_is(rt, &reply, 9, 0, 0);
    assert_eq!(rt; to.len(), row.5 as usize);
    assert!(rt; front.len() <= to.bytes().len());
    assert_eq!(rt; &to.bytes()[..front.len()], front);
}

// Disables namespace 1 and ends its drain; or enables it.
fn turn(rt: &impl Abort, alloc: Global, target: &mut Target, on: bool) {
    let value: &[u8] = if on { b"1" } else { b"0" };
    let e = set_space(rt, alloc, Attr::Enable, value);
    edit(rt, alloc, target, &e, Reply::Accepted);
    if !on {
        end_drain(rt, target);
    }
}

#[test]
fn notices_tell_of_changes(rt: HostRuntime) -> Result<(), Fail> {
    let alloc = rt.alloc();
    let mut target = configured(&rt, alloc);
    connect_all(&rt, &mut target, &JOINED);
    set_cc(&rt, &mut target, 3, 0x0046_0001);
    request_events(&rt, alloc, &mut target);
    assert_eq!(rt; target.poll(3), Reply::NoEvent);
    turn(&rt, alloc, &mut target, false);
    assert_eq!(rt; target.poll(1), Reply::NoEvent);
    poll_event(&rt, &mut target, 13, 0x0004_0002);
    assert_eq!(rt; target.poll(3), Reply::NoEvent);
    turn(&rt, alloc, &mut target, true);
    assert_eq!(rt; target.poll(3), Reply::NoEvent);
    let retained = Admin(0x02, 0x40, 0, 0x03ff_8004, 0, 4096, 0, 0);
    let cleared = Admin(0x02, 0x40, 0, 0x03ff_0004, 0, 4096, 0, 0);
    read_log(
        &rt,
        alloc,
        &mut target,
        &retained,
        &[1, 0, 0, 0, 0, 0, 0, 0],
    );
    read_log(&rt, alloc, &mut target, &cleared, &[1, 0, 0, 0, 0, 0, 0, 0]);
    read_log(&rt, alloc, &mut target, &retained, &[0; 8]);
    assert_eq!(rt; target.poll(3), Reply::NoEvent);
    turn(&rt, alloc, &mut target, false);
    poll_event(&rt, &mut target, 12, 0x0004_0002);
    let state = set(
        &rt,
        alloc,
        Folder::AnaGroup(1, 1),
        Attr::AnaState,
        b"inaccessible",
    );
    edit(&rt, alloc, &mut target, &state, Reply::Accepted);
    poll_event(&rt, &mut target, 11, 0x000c_0302);
    Ok(())
}

// One group with one enabled namespace.
const ANA_LOG: [u8; 52] = [
    0, 0, 0, 0, 0, 0, 0, 0, 1, 0, 0, 0, 0, 0, 0, 0, 1, 0, 0, 0, 1, 0, 0, 0, 0, 0, 0, 0, 0, 0, 0, 0,
    1, 0, 0, 0, 0, 0, 0, 0, 0, 0, 0, 0, 0, 0, 0, 0, 1, 0, 0, 0,
];

#[test]
fn logs_are_read(rt: HostRuntime) -> Result<(), Fail> {
    let alloc = rt.alloc();
    let mut target = configured(&rt, alloc);
    connect_all(&rt, &mut target, &JOINED);
    set_cc(&rt, &mut target, 3, 0x0046_0001);
    let log = Admin(0x02, 0x40, 0, 0x000c_000c, 0, 52, 0, 0);
    read_log(&rt, alloc, &mut target, &log, &ANA_LOG);
    let refused = [
        Admin(0x02, 0x40, 0, 0x000c_0002, 0, 52, 0x8004, 0),
        Admin(0x02, 0x40, 0, 0x000c_000c, 0, 51, 0x801e, 0),
    ];
    submit_all(&rt, alloc, &mut target, &refused);
    Ok(())
}
