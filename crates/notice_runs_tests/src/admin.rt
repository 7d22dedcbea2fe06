// Admin queues and their commands.
use mem_bdev::Buffer;
use sqe_cqe::{FABRICS, Sqe, read_sqe};
use std::alloc::Global;
use std::process::Abort;
use tree_target::{Reply, Target};

// A namespace notice and an ANA notice: bytes 02 00 04 00 and 02 03 0c 00, lowest first.
pub(crate) const NAMESPACE: u64 = 2 + 4 * 65536;

pub(crate) const ANA: u64 = 2 + 3 * 256 + 12 * 65536;

// A completion on an admin queue, which must have these.
pub(crate) fn completes(rt: &impl Abort, reply: &Reply, cid: u16, status: u16, value: u64) {
    match reply {
        Reply::Answered(cqe) => {
            assert_eq!(rt; cqe.cid, cid);
            assert_eq!(rt; cqe.sq_id, 0);
            assert_eq!(rt; cqe.status, status, "cid {cid}");
            assert_eq!(rt; cqe.result, value, "cid {cid}");
        }
        _ => assert!(rt; false, "no completion"),
    }
}

fn fabrics(kind: u32, len: u32) -> Sqe {
    let mut e = read_sqe(&[0; 64]);
    e.opcode = FABRICS;
    e.flags = 0x40;
    e.cid = 9;
    e.nsid = kind;
    e.sgl_len = len;
    e
}

fn put(rt: &impl Abort, data: &mut [u8; 1024], at: usize, bytes: &[u8]) {
    assert!(rt; at <= 512 && bytes.len() <= 256);
    data[at..at + bytes.len()].copy_from_slice(bytes);
}

fn control(rt: &impl Abort, target: &mut Target, queue: u32, e: &Sqe, data: &[u8], value: u64) {
    assert!(rt; e.opcode == FABRICS);
    assert!(rt; data.len() == e.sgl_len as usize);
    assert!(rt; queue >= 1 && queue as usize <= target.queues());
    assert!(rt; target.is_idle(queue));
    let reply = target.control(queue, 0, e, data);
    completes(rt, &reply, 9, 0, value);
}

// Connects a queue as the admin queue of this controller of a subsystem, and enables it.
pub(crate) fn connect(
    rt: &impl Abort,
    target: &mut Target,
    queue: u32,
    sub: &[u8],
    controller: u64,
) {
    let mut e = fabrics(0x01, 1024);
    e.cdw11 = 31;
    let mut data = [0; 1024];
    put(rt, &mut data, 16, &[0xff, 0xff]);
    put(rt, &mut data, 256, sub);
    put(rt, &mut data, 512, b"h");
    control(rt, target, queue, &e, &data, controller);
    let mut ready = fabrics(0x00, 0);
    ready.cdw11 = 0x14;
    ready.cdw12 = 0x0046_0001;
    control(rt, target, queue, &ready, &[], 0);
}

// A command: opcode, dwords 10 to 13, SGL length.
pub(crate) type Command = (u8, [u32; 4], u32);

// Submits a command of an admin queue, with room for its data.
#[tactic(auto, using(tree_target::proofs::Administering::room_short))]
pub(crate) fn submit(
    rt: &impl Abort,
    alloc: Global,
    target: &mut Target,
    queue: u32,
    cid: u16,
    command: &Command,
) -> (Reply, Buffer) {
    let mut to = Buffer::with_room(alloc, 4096).expect(rt, "memory");
    let mut e = read_sqe(&[0; 64]);
    e.opcode = command.0;
    e.flags = 0x40;
    e.cid = cid;
    e.cdw10 = command.1[0];
    e.cdw11 = command.1[1];
    e.cdw12 = command.1[2];
    e.cdw13 = command.1[3];
    e.sgl_len = command.2;
    assert!(rt; e.sgl_len <= 4096);
    assert!(rt; queue >= 1 && queue as usize <= target.queues());
    assert!(rt; target.is_idle(queue));
    assert!(rt; target.is_admin(queue));
    let reply = target.submit_admin(queue, 0, &e, &mut to);
    (reply, to)
}

// An event request, which must wait.
pub(crate) fn request(rt: &impl Abort, alloc: Global, target: &mut Target, queue: u32, cid: u16) {
    let (reply, _) = submit(rt, alloc, target, queue, cid, &(0x0c, [0; 4], 0));
    assert_eq!(rt; reply, Reply::Waiting);
}

// Reads log 04h, 4,096 bytes from its start, with RAE 1 or 0.
pub(crate) fn read_changed(
    rt: &impl Abort,
    alloc: Global,
    target: &mut Target,
    queue: u32,
    retain: bool,
) -> Buffer {
    let cdw10 = if retain { 0x03ff_8004 } else { 0x03ff_0004 };
    let (reply, to) = submit(rt, alloc, target, queue, 9, &(0x02, [cdw10, 0, 0, 0], 4096));
    completes(rt, &reply, 9, 0, 0);
    to
}

// A poll: the event's command identifier and result, or none.
pub(crate) fn polls(rt: &impl Abort, target: &mut Target, queue: u32, event: Option<(u16, u64)>) {
    let reply = target.poll(queue);
    match event {
        None => assert_eq!(rt; reply, Reply::NoEvent),
        Some((cid, value)) => completes(rt, &reply, cid, 0, value),
    }
}
