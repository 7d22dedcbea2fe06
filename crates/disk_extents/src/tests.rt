ghost use Rattle.std.specs.Prelude.{◌≡◌, ◌≤◌, ◌<◌, ◌+◌, ◌*◌, ◌^◌, length};
ghost use Rattle.mem_bdev.specs.Blocks.{IsShape};

use super::*;
use io_commands::Job;
use mem_bdev::{Buffer, Disk};
use std::alloc::Global;
use std::process::Abort;
use std::test::Fail;

const ROOM: usize = 131_072;

// The extents of a blank disk.
fn blank(alloc: Global, shift: u8, blocks: u64) -> Result<Vec<Extent>, Fail>
    requires { IsShape shift blocks }
{
    let disk = Disk::new(alloc, shift, blocks)?;
    let mut all = Vec::new(alloc);
    split(alloc, &disk, &mut all)?;
    Ok(all)
}

// Each extent of a disk: its first block, and how many it has.
fn assert_shape(rt: &impl Abort, all: &[Extent], want: &[(u64, u64)]) {
    assert_eq!(rt; all.len(), 8);
    assert_eq!(rt; want.len(), 8);
    for i in 0..8 {
        let extent = &all[i];
        assert_eq!(rt; extent.first(), want[i].0, "first block of extent {i}");
        assert_eq!(rt; extent.blocks(), want[i].1, "blocks of extent {i}");
    }
}

#[test]
fn extents_have_their_blocks(rt: HostRuntime) -> Result<(), Fail> {
    let sixteen = [
        (0, 2),
        (2, 2),
        (4, 2),
        (6, 2),
        (8, 2),
        (10, 2),
        (12, 2),
        (14, 2),
    ];
    assert_shape(&rt, &blank(rt.alloc(), 9, 16)?, &sixteen);
    let nine = [
        (0, 1),
        (1, 1),
        (2, 1),
        (3, 1),
        (4, 1),
        (5, 1),
        (6, 1),
        (7, 2),
    ];
    assert_shape(&rt, &blank(rt.alloc(), 12, 9)?, &nine);
    let three = [
        (0, 1),
        (1, 1),
        (2, 1),
        (3, 0),
        (3, 0),
        (3, 0),
        (3, 0),
        (3, 0),
    ];
    assert_shape(&rt, &blank(rt.alloc(), 9, 3)?, &three);
    let one = [
        (0, 1),
        (1, 0),
        (1, 0),
        (1, 0),
        (1, 0),
        (1, 0),
        (1, 0),
        (1, 0),
    ];
    assert_shape(&rt, &blank(rt.alloc(), 12, 1)?, &one);
    Ok(())
}

#[test]
fn the_largest_disk_is_split(rt: HostRuntime) -> Result<(), Fail> {
    let all = blank(rt.alloc(), 9, 32_768)?;
    assert_eq!(rt; all.len(), 8);
    let last = &all[7];
    assert_eq!(rt; last.first(), 28_672);
    assert_eq!(rt; last.blocks(), 4_096);
    assert_eq!(rt; extent_of(32_768, 28_671), 6);
    assert_eq!(rt; extent_of(32_768, 32_767), 7);
    Ok(())
}

#[test]
fn jobs_touch_the_extents_of_their_blocks(rt: HostRuntime) -> Result<(), Fail> {
    // blocks of the disk, first block and count of the job, extents from and up to
    for (blocks, lba, count, first, end) in [
        (16, 1, 4, 0, 3),
        (16, 15, 1, 7, 8),
        (16, 0, 16, 0, 8),
        (16, 2, 2, 1, 2),
        (9, 7, 2, 7, 8),
        (9, 6, 2, 6, 8),
        (3, 0, 3, 0, 3),
        (3, 2, 1, 2, 3),
        (16, 5, 0, 0, 0),
    ] {
        let job = Job::Write {
            disk: 0,
            lba,
            count,
        };
        let touched = extents_touched(blocks, &job);
        assert_eq!(rt;
            touched,
            Touched { first, end },
            "{count} blocks from {lba} on {blocks}"
        );
    }
    let touched = extents_touched(16, &Job::Flush { disk: 0 });
    assert_eq!(rt; touched, Touched { first: 0, end: 0 });
    Ok(())
}

// A Write on the extents that it touches, in rising order, on blocks of 512 bytes.
fn write_all(rt: &impl Abort, all: &mut [Extent], lba: u64, payload: &[u8], to: &mut Buffer) {
    assert_eq!(rt; all.len(), 8);
    assert!(rt; lba < 32_768 && payload.len() < 65_536);
    let count = (payload.len() / 512) as u32;
    assert_eq!(rt; payload.len(), count as usize * 512);
    let job = Job::Write {
        disk: 0,
        lba,
        count,
    };
    let touched = extents_touched(16, &job);
    for number in touched.first..touched.end {
        let extent = &mut all[number as usize];
        assert_eq!(rt; extent.block_size(), 512);
        let len = to.len();
        assert!(rt; len + part_len(&job, extent) <= ROOM);
        do_part(&job, extent, payload, to);
        assert_eq!(rt; to.len(), len);
    }
}

// What a Read gives of the extents that it touches, in rising order, on blocks of 512 bytes.
fn read_all(rt: &impl Abort, all: &mut [Extent], lba: u64, count: u32, to: &mut Buffer)
    requires { to.old.room ≡ 131072 }
    ensures { to.new.room ≡ 131072 }
{
    assert_eq!(rt; all.len(), 8);
    assert!(rt; lba < 32_768);
    let job = Job::Read {
        disk: 0,
        lba,
        count,
    };
    let touched = extents_touched(16, &job);
    for number in touched.first..touched.end {
        let extent = &mut all[number as usize];
        assert!(rt; part_len(&job, extent) <= ROOM - to.len());
        do_part(&job, extent, &[], to);
    }
}

// A Write Zeroes on the extents that it touches.
fn zero_all(rt: &impl Abort, all: &mut [Extent], lba: u64, count: u32, to: &mut Buffer) {
    assert_eq!(rt; all.len(), 8);
    assert!(rt; lba < 32_768);
    let job = Job::Zero {
        disk: 0,
        lba,
        count,
    };
    let touched = extents_touched(16, &job);
    for number in touched.first..touched.end {
        let len = to.len();
        do_part(&job, &mut all[number as usize], &[], to);
        assert_eq!(rt; to.len(), len);
    }
}

// Each block of 512 bytes has this byte throughout.
fn assert_blocks(rt: &impl Abort, bytes: &[u8], want: &[u8]) {
    assert_eq!(rt; bytes.len() / 512, want.len());
    assert_eq!(rt; bytes.len() % 512, 0);
    for (i, byte) in bytes.iter().enumerate() {
        assert_eq!(rt; *byte, want[i / 512], "byte {i}");
    }
}

#[test]
fn a_write_over_three_extents_is_read_back(rt: HostRuntime) -> Result<(), Fail> {
    let mut all = blank(rt.alloc(), 9, 16)?;
    let mut to = Buffer::with_room(rt.alloc(), ROOM)?;
    let mut payload = [0; 2048];
    for i in 0..payload.len() {
        payload[i] = (i / 512 + 1) as u8;
    }
    write_all(&rt, &mut all, 1, &payload, &mut to);
    let mut whole = Buffer::with_room(rt.alloc(), ROOM)?;
    read_all(&rt, &mut all, 1, 4, &mut whole);
    assert_eq!(rt; whole.bytes(), payload.as_slice());
    whole.clear();
    zero_all(&rt, &mut all, 2, 2, &mut to);
    read_all(&rt, &mut all, 0, 16, &mut whole);
    assert_blocks(
        &rt,
        whole.bytes(),
        &[0, 1, 0, 0, 4, 0, 0, 0, 0, 0, 0, 0, 0, 0, 0, 0],
    );
    Ok(())
}

#[test]
fn what_stood_on_the_disk_stands_on_its_extents(rt: HostRuntime) -> Result<(), Fail> {
    let mut disk = Disk::new(rt.alloc(), 9, 16)?;
    disk.write(7, &[5; 1024]);
    let mut all = Vec::new(rt.alloc());
    split(rt.alloc(), &disk, &mut all)?;
    let mut to = Buffer::with_room(rt.alloc(), ROOM)?;
    read_all(&rt, &mut all, 6, 4, &mut to);
    assert_blocks(&rt, to.bytes(), &[0, 5, 5, 0]);
    Ok(())
}
