// The sequential target over the same configuration, with a queue that is connected.
use crate::begun::{edits, lines};
use crate::rolls::Turn;
use configfs_tree::{Errno, may_be_disks};
use io_commands::Admit;
use link_rules::Edit;
use mem_bdev::{Buffer, DiskLine};
use sqe_cqe::{FABRICS, Sqe, read_sqe};
use std::alloc::Global;
use std::process::Abort;
use tree_target::{Call, Reply, Target};

fn loaded(rt: &impl Abort, alloc: Global) -> Target {
    let lines = lines(rt, alloc);
    assert!(rt; lines[0].is_shape());
    assert!(rt; lines[1].is_shape());
    assert!(rt; lines[2].is_shape());
    assert!(rt; may_be_disks(&lines));
    let loaded = Target::load(alloc, &lines, &[], &[1, 1]);
    loaded.expect(rt, "loaded")
}

fn fabrics(kind: u32, len: u32) -> Sqe {
    let mut e = read_sqe(&[0; 64]);
    e.opcode = FABRICS;
    e.flags = 0x40;
    e.cid = 9;
    e.nsid = kind;
    e.sgl_len = len;
    e
}

// Makes a fabrics command, which must succeed.
fn control(rt: &impl Abort, target: &mut Target, queue: u32, e: &Sqe, data: &[u8]) {
    assert!(rt; e.opcode == FABRICS);
    assert!(rt; data.len() == e.sgl_len as usize);
    assert!(rt; queue >= 1 && queue as usize <= target.queues());
    assert!(rt; target.is_idle(queue));
    let reply = target.control(queue, 0, e, data);
    assert_eq!(rt; status_of(&reply), Some(0));
}

// Connects a queue of subsystem "a" with this QID, to a new controller or to controller 1.
fn connect(rt: &impl Abort, target: &mut Target, queue: u32, qid: u16, cntlid: u16) {
    let mut e = fabrics(0x01, 1024);
    e.cdw10 = u32::from(qid) * 0x1_0000;
    e.cdw11 = 31;
    e.cdw12 = 120_000;
    let mut data = [0; 1024];
    data[16..18].copy_from_slice(&cntlid.to_le_bytes());
    data[256] = b'a';
    data[512] = b'h';
    control(rt, target, queue, &e, &data);
}

// Makes an edit, which is accepted.
fn accept(rt: &impl Abort, alloc: Global, target: &mut Target, e: &Edit) {
    assert!(rt; e.is_fitting());
    let reply = target.edit(alloc, 1, e).expect(rt, "memory");
    assert_eq!(rt; reply, Reply::Accepted);
}

fn accept_all(rt: &impl Abort, alloc: Global, target: &mut Target, edits: &[Edit]) {
    for e in edits {
        accept(rt, alloc, target, e);
    }
}

// Sets CC.EN of the controller of an admin queue.
fn enable(rt: &impl Abort, target: &mut Target, queue: u32) {
    let mut e = fabrics(0x00, 0);
    e.cdw11 = 0x14;
    e.cdw12 = 0x0046_0001;
    control(rt, target, queue, &e, &[]);
}

/// The target: queue 1 is connected as QID 1 of controller 1, which is enabled, and queue 2 is its
/// admin queue.
pub fn served(rt: &impl Abort, alloc: Global) -> Target {
    let mut target = loaded(rt, alloc);
    accept_all(rt, alloc, &mut target, &edits(rt, alloc));
    connect(rt, &mut target, 2, 0, 0xffff);
    connect(rt, &mut target, 1, 1, 1);
    enable(rt, &mut target, 2);
    target
}

// The status of a completion.
fn status_of(reply: &Reply) -> Option<u16> {
    match reply {
        Reply::Answered(cqe) => Some(cqe.status),
        _ => None,
    }
}

// The errno of a refused edit.
fn errno_of(reply: &Reply) -> Option<Errno> {
    match reply {
        Reply::Errno(errno) => Some(*errno),
        _ => None,
    }
}

// Ends the drain of a turn, where one may end.
fn end(rt: &impl Abort, target: &mut Target, turn: &Turn) {
    if let Some((sub, nsid)) = &turn.drain {
        if target.may_end(sub, *nsid) {
            assert_eq!(rt; target.end_drain(1, sub, *nsid), Reply::Ended);
        }
    }
}

/// Ends the drain and makes the edit of a turn: the errno, where the edit is refused.
pub fn follow(rt: &impl Abort, alloc: Global, target: &mut Target, turn: &Turn) -> Option<Errno> {
    end(rt, target, turn);
    assert!(rt; turn.edit.is_fitting());
    let reply = target.edit(alloc, 1, &turn.edit).expect(rt, "memory");
    errno_of(&reply)
}

// Executes the held command of queue 1, which succeeds.
fn finish(rt: &impl Abort, alloc: Global, target: &mut Target, len: u32) {
    let data = [7; 4096];
    let payload = data.get(..len as usize).unwrap_or(&[]);
    assert!(rt; target.is_held(1, 0));
    assert!(rt; target.takes(1, 0, payload.len()));
    let room = target.held_len(1, 0) as usize;
    let mut to = Buffer::with_room(alloc, room).expect(rt, "memory");
    let reply = target.execute(1, 0, payload, &mut to);
    assert_eq!(rt; status_of(&reply), Some(0));
}

/// The command of queue 1 gets from the target what it was admitted with, and is executed where it
/// is held: whether it is.
pub fn is_admitted(
    rt: &impl Abort,
    alloc: Global,
    target: &mut Target,
    e: &Sqe,
    admitted: &Admit,
) -> bool {
    assert!(rt; target.queues() == 2 && target.is_idle(1) && !target.is_admin(1));
    let reply = target.submit(1, 0, e);
    match admitted {
        Admit::Refused(status) => {
            assert_eq!(rt; status_of(&reply), Some(*status));
            false
        }
        Admit::Run(_) => {
            assert_eq!(rt; reply, Reply::Held);
            finish(rt, alloc, target, e.sgl_len);
            true
        }
    }
}
