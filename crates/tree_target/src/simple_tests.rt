// The target of a simple plan, by rows that were worked out by hand.
use super::*;
use mem_bdev::{Buffer, DiskLine, Name};
use plan_files::is_name;
use sqe_cqe::{Sqe, read_sqe};
use std::alloc::Global;
use std::process::Abort;
use std::test::Fail;

// A command from this block on, for so many blocks more.
#[derive(Clone, Copy)]
struct Row {
    opcode: u8,
    flags: u8,
    nsid: u32,
    lba: u64,
    more: u32,
    len: u32,
    status: u16,
}

// A Read of the last of 16 blocks.
const READ: Row = Row {
    opcode: 0x02,
    flags: 0x40,
    nsid: 1,
    lba: 15,
    more: 0,
    len: 512,
    status: 0,
};

fn entry(row: &Row) -> Sqe {
    let mut e = read_sqe(&[0; 64]);
    e.opcode = row.opcode;
    e.flags = row.flags;
    e.cid = 7;
    e.nsid = row.nsid;
    e.sgl_len = row.len;
    e.cdw10 = (row.lba % 0x1_0000_0000) as u32;
    e.cdw11 = (row.lba / 0x1_0000_0000) as u32;
    e.cdw12 = row.more;
    e
}

// The target over 16 blocks of 512 bytes.
fn simple(rt: &impl Abort, alloc: Global) -> Target {
    let path = Name::copied(alloc, b"/dev/ram0").expect(rt, "memory");
    let disk = DiskLine {
        path,
        shift: 9,
        blocks: 16,
    };
    assert!(rt; disk.is_shape());
    assert!(rt; is_name(disk.path.as_bytes()));
    Target::simple(alloc, &disk).expect(rt, "memory")
}

fn submitted(rt: &impl Abort, target: &mut Target, row: &Row) -> Reply {
    assert!(rt; target.queues() == 1);
    assert!(rt; target.is_idle(1));
    assert!(rt; !target.is_admin(1));
    assert!(rt; !target.is_admin(1));
    target.submit(1, 0, &entry(row))
}

fn completes(rt: &impl Abort, reply: &Reply, status: u16) {
    match reply {
        Reply::Answered(cqe) => {
            assert_eq!(rt; cqe.cid, 7);
            assert_eq!(rt; cqe.sq_id, 1);
            assert_eq!(rt; cqe.status, status);
        }
        _ => assert!(rt; false, "no completion"),
    }
}

#[test]
fn the_last_block_is_read(rt: HostRuntime) -> Result<(), Fail> {
    let alloc = rt.alloc();
    let mut target = simple(&rt, alloc);
    assert_eq!(rt; target.queues(), 1);
    assert_eq!(rt; target.binding(1).port, 1);
    assert_eq!(rt; submitted(&rt, &mut target, &READ), Reply::Held);
    assert!(rt; target.is_held(1, 0));
    assert!(rt; target.takes(1, 0, 0));
    assert_eq!(rt; target.held_len(1, 0), 512);
    let mut to = Buffer::with_room(alloc, 512)?;
    let reply = target.execute(1, 0, &[], &mut to);
    completes(&rt, &reply, 0);
    assert_eq!(rt; to.bytes(), [0; 512].as_slice());
    Ok(())
}

#[test]
fn the_first_check_that_fails_is_told(rt: HostRuntime) -> Result<(), Fail> {
    let mut rows = [READ; 7];
    // Past the last block, and far past it.
    rows[0].more = 1;
    rows[0].len = 1024;
    rows[0].status = 0x8100;
    rows[1].lba = u64::MAX;
    rows[1].status = 0x8100;
    // No such namespace.
    rows[2].nsid = 2;
    rows[2].status = 0x8016;
    // No SGL, and then also no such namespace.
    rows[3].flags = 0;
    rows[3].status = 0x8004;
    rows[4].flags = 0;
    rows[4].nsid = 2;
    rows[4].status = 0x8004;
    // No such command.
    rows[5].opcode = 0x7e;
    rows[5].status = 0x8002;
    // One byte less than a block.
    rows[6].opcode = 0x01;
    rows[6].len = 511;
    rows[6].status = 0x801e;
    let mut target = simple(&rt, rt.alloc());
    for row in &rows {
        let reply = submitted(&rt, &mut target, row);
        completes(&rt, &reply, row.status);
    }
    Ok(())
}
