ghost use Rattle.std.specs.Prelude.{◌≡◌, ◌≤◌, ◌<◌, ◌+◌, ◌-◌, ◌*◌, ◌^◌, ◌++◌, [], ◌∷◌, IfOk, OnErr, length, map, take, drop};
ghost use Rattle.std.specs.List.{range_with_len};
ghost use Rattle.mem_bdev.specs.Blocks.{IsShape, zero_blocks};
ghost use Rattle.mem_bdev.specs.declared.limits.TheConstants.{MAX_DISK_BYTES};
ghost use Rattle.disk_extents.specs.Extents.{edge, eighth, extent, extent_number, extents};

use mem_bdev::Disk;
use std::alloc::{AllocError, Global};
use std::marker::Model;

/// How many extents a disk has.
pub const EXTENTS: u32 = 8;

/// An extent of a disk: neighbouring blocks of it, which may be none. Contracts see the number
/// that its first block has on the disk, and its blocks.
#[derive(Drop)]
pub struct Extent {
    pub(crate) first: u64,
    pub(crate) end: u64,
    pub(crate) size: usize,
    pub(crate) shift: u8,
    pub(crate) disk: Option<Disk>,
}

impl Model for Extent {
    ghost use Rattle.disk_extents.specs.Extents.{Part};

    ghost Value = { Part };

    ghost use Rattle.disk_extents.specs.Held.{held_in, IsHeld};

    ghost view = { λ x. record { first = x.first; held = held_in x.shift x.disk } };

    ghost invariant = { λ x. IsHeld x.first x.end x.size x.shift x.disk };
}

impl Extent {
    /// The number, on the disk, of its first block.
    pub fn first(&self) -> u64
        ensures { result ≡ self.now.first }
    {
        self.first
    }

    /// The block size in bytes: 512 or 4,096.
    pub fn block_size(&self) -> usize
        ensures size { result ≡ 2 ^ self.now.held.shift }
        ensures small { result ≤ 4096 }
    {
        self.size
    }

    /// The number of its blocks.
    pub fn blocks(&self) -> u64
        ensures { result ≡ length self.now.held.blocks }
    {
        self.end - self.first
    }
}

// An eighth of so many blocks, and at least one.
fn eighth_of(blocks: u64) -> u64
    ensures value { result ≡ eighth blocks }
    ensures some { 1 ≤ result }
{
    if blocks < 8 { 1 } else { blocks / 8 }
}

// Where an extent begins on a disk of so many blocks.
fn edge_of(blocks: u64, extent: u32) -> u64
    requires extent { extent ≤ 8 }
    requires blocks { blocks ≤ 32768 }
    ensures value { result ≡ edge blocks extent }
    ensures inside { result ≤ blocks }
{
    if extent == EXTENTS {
        return blocks;
    }
    (u64::from(extent) * eighth_of(blocks)).min(blocks)
}

/// The extent, from 0, in which a block lies, on a disk of so many blocks.
pub fn extent_of(blocks: u64, block: u64) -> u32
    ensures number { result ≡ extent_number blocks block }
    ensures small { result < EXTENTS }
{
    (block / eighth_of(blocks)).min(7) as u32
}

// Copies one block of a disk to another disk with blocks of that size.
fn copy_block(from: &Disk, lba: u64, to: &mut Disk, at: u64, buffer: &mut [u8])
    requires shift { to.old.shift ≡ from.now.shift }
    requires size { length buffer.old ≡ 2 ^ from.now.shift }
    requires there { lba < length from.now.blocks }
    requires room { at < length to.old.blocks }
    ensures { to.new ≡ record to.old {
      blocks = take at to.old.blocks
          ++ (take 1 (drop lba from.now.blocks) ++ drop (at + 1) to.old.blocks);
    } }
{
    from.read(lba, buffer);
    to.write(at, buffer);
}

// The blocks of a disk from `first` up to `end`, as a disk of their own.
fn copied(alloc: Global, disk: &Disk, first: u64, end: u64) -> Result<Disk, AllocError>
    requires shape { IsShape disk.now.shift (length disk.now.blocks) }
    requires some { first < end }
    requires inside { end ≤ length disk.now.blocks }
    ensures { IfOk result
        (λ d. d ≡ record disk.now { blocks = take (end - first) (drop first disk.now.blocks) }) }
{
    let mut part = Disk::new(alloc, disk.shift(), end - first)?;
    let mut buffer = [0; 4096];
    let block = &mut buffer[..disk.block_size()];
    for at in 0..end - first {
        copy_block(disk, first + at, &mut part, at, block);
    }
    Ok(part)
}

// An extent of a disk, copied.
fn extent_from(alloc: Global, disk: &Disk, number: u32) -> Result<Extent, AllocError>
    requires shape { IsShape disk.now.shift (length disk.now.blocks) }
    requires number { number < 8 }
    ensures { IfOk result (λ x. x ≡ extent disk.now number) }
{
    let blocks = disk.blocks();
    let first = edge_of(blocks, number);
    let end = edge_of(blocks, number + 1);
    let size = disk.block_size();
    let shift = disk.shift();
    let held = if first < end {
        Some(copied(alloc, disk, first, end)?)
    } else {
        None
    };
    Ok(Extent {
        first,
        end,
        size,
        shift,
        disk: held,
    })
}

// Appends the extents of a disk; where memory is wanted, some of them may stand after what stood
// before.
fn append_extents(alloc: Global, disk: &Disk, to: &mut Vec<Extent>) -> Result<(), AllocError>
    requires shape { IsShape disk.now.shift (length disk.now.blocks) }
    ensures all { IfOk result (λ _. to.new.items ≡ to.old.items ++ extents disk.now) }
    ensures before { take (length to.old.items) to.new.items ≡ to.old.items }
{
    for number in 0..EXTENTS {
        let extent = extent_from(alloc, disk, number)?;
        to.push(extent)?;
    }
    Ok(())
}

/// Appends the eight extents of a disk, in rising order, with copies of its blocks. Where memory
/// is wanted, the list is as before.
pub fn split(alloc: Global, disk: &Disk, to: &mut Vec<Extent>) -> Result<(), AllocError>
    requires shape { IsShape disk.now.shift (length disk.now.blocks) }
    ensures extents { IfOk result (λ _. to.new.items ≡ to.old.items ++ extents disk.now) }
    ensures refused { OnErr result (to.new.items ≡ to.old.items) }
{
    let before = to.len();
    let result = append_extents(alloc, disk, to);
    if result.is_err() {
        to.truncate(before);
    }
    result
}
