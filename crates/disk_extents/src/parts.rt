ghost use Rattle.std.specs.Prelude.{◌≡◌, ◌≤◌, ◌<◌, ◌+◌, ◌-◌, ◌*◌, ◌^◌, length, min, max, take, drop};
ghost use Rattle.mem_bdev.specs.Texts.{HasRoom, appended};
ghost use Rattle.mem_bdev.specs.declared.limits.TheConstants.{MAX_TRANSFER};
ghost use Rattle.io_commands.specs.Jobs.{HasData, end_of, given_len};
ghost use Rattle.disk_extents.specs.Parts.{end_of_part, met_end, met_first, on_part, part_after, part_len, part_of, part_read, piece_of};
ghost use Rattle.disk_extents.specs.Together.{end_touched, first_touched, start_of};

use crate::extents::{Extent, extent_of};
use io_commands::{Job, do_io};
use mem_bdev::Buffer;

/// The extents that a job touches: from `first` up to the one before `end`, counted from 0. None,
/// where these are equal.
#[derive(Clone, Copy, Debug, PartialEq, Eq)]
pub struct Touched {
    pub first: u32,
    pub end: u32,
}

// The job's first block, and the number of the block after its last.
fn range_of(job: &Job) -> (u64, u64)
    requires { end_of job.now < 2 ^ 64 }
    ensures first { result.0 ≡ start_of job.now }
    ensures end { result.1 ≡ end_of job.now }
{
    match *job {
        Job::Read {
            disk: _,
            lba,
            count,
        } => (lba, lba + u64::from(count)),
        Job::Write {
            disk: _,
            lba,
            count,
        } => (lba, lba + u64::from(count)),
        Job::Zero {
            disk: _,
            lba,
            count,
        } => (lba, lba + u64::from(count)),
        Job::Flush { disk: _ } => (0, 0),
    }
}

/// The extents that a job touches, on a disk of so many blocks. A Flush touches none.
pub fn extents_touched(blocks: u64, job: &Job) -> Touched
    requires { end_of job.now < 2 ^ 64 }
    ensures first { result.first ≡ first_touched blocks job.now }
    ensures end { result.end ≡ end_touched blocks job.now }
    ensures rising { result.first ≤ result.end }
    ensures small { result.end ≤ 8 }
{
    let (first, end) = range_of(job);
    if first < end {
        Touched {
            first: extent_of(blocks, first),
            end: extent_of(blocks, end - 1) + 1,
        }
    } else {
        Touched { first: 0, end: 0 }
    }
}

// What an extent has of a range: the first block, in the extent's own numbers, and how many.
#[derive(Clone, Copy)]
struct Met {
    at: u64,
    count: u32,
}

// Some neighbouring bytes.
fn piece_at(bytes: &[u8], start: usize, len: usize) -> &[u8]
    requires { start + len ≤ length bytes.now }
    ensures { result.now ≡ take len (drop start bytes.now) }
{
    &bytes[start..start + len]
}

impl Extent {
    // What the extent has of the blocks from `first` up to `end` of the disk.
    fn met(&self, first: u64, end: u64) -> Met
        ensures at { result.at ≡ max self.now.first first - self.now.first }
        ensures count { result.count ≡ min (end_of_part self.now) end - max self.now.first first }
    {
        let from = self.first.max(first);
        let till = self.end.min(end);
        let count = if from < till { (till - from) as u32 } else { 0 };
        Met {
            at: from - self.first,
            count,
        }
    }

    // The job on what the extent has of its range.
    fn part_of(&self, job: &Job) -> Job
        requires { end_of job.now < 2 ^ 64 }
        ensures { result ≡ part_of self.now job.now }
    {
        let (first, end) = range_of(job);
        let met = self.met(first, end);
        let lba = met.at;
        let count = met.count;
        match *job {
            Job::Read { disk, .. } if count != 0 => Job::Read { disk, lba, count },
            Job::Write { disk, .. } if count != 0 => Job::Write { disk, lba, count },
            Job::Zero { disk, .. } if count != 0 => Job::Zero { disk, lba, count },
            Job::Read { disk, .. }
            | Job::Write { disk, .. }
            | Job::Zero { disk, .. }
            | Job::Flush { disk } => Job::Flush { disk },
        }
    }
    // Of a Write's data, the blocks that fall on the extent.
    fn piece_of<'a>(&self, job: &Job, payload: &'a [u8]) -> &'a [u8]
        requires range { end_of job.now < 2 ^ 64 }
        requires data { HasData job.now self.now.held.shift (length payload.now) }
        ensures { result.now ≡ piece_of self.now job.now payload.now }
    {
        match *job {
            Job::Write { lba, count, .. } => {
                let met = self.met(lba, lba + u64::from(count));
                if met.count == 0 {
                    return &payload[..0];
                }
                let skipped = (self.first + met.at - lba) as usize;
                let start = skipped * self.size;
                let len = met.count as usize * self.size;
                piece_at(payload, start, len)
            }
            Job::Read { .. } | Job::Zero { .. } | Job::Flush { .. } => &payload[..0],
        }
    }
}

/// How many bytes the part of a job on an extent gives to the host: those of a Read's blocks
/// there, else none.
pub fn part_len(job: &Job, extent: &Extent) -> usize
    requires { end_of job.now < 2 ^ 64 }
    ensures { result ≡ part_len extent.now job.now }
{
    match extent.part_of(job) {
        Job::Read { count, .. } => count as usize * extent.block_size(),
        Job::Write { .. } | Job::Zero { .. } | Job::Flush { .. } => 0,
    }
}

/// Does the part of a job that falls on an extent of its disk, in place: a Read's blocks there
/// are appended to `to`, which has room for them; of a Write's data the blocks that fall there
/// are put there, of a Write Zeroes zeros. A job that has no block there changes nothing. Always
/// does it, and takes no memory.
pub fn do_part(job: &Job, extent: &mut Extent, payload: &[u8], to: &mut Buffer)
    requires range { end_of job.now < 2 ^ 64 }
    requires data { HasData job.now extent.old.held.shift (length payload.now) }
    requires room { HasRoom to.old (part_len extent.old job.now) }
    ensures extent { extent.new ≡ part_after extent.old job.now payload.now }
    ensures bytes { to.new ≡ appended to.old (part_read extent.old job.now) }
    ensures len { length to.new.bytes ≡ length to.old.bytes + part_len extent.old job.now }
{
    let part = extent.part_of(job);
    let piece = extent.piece_of(job, payload);
    match &mut extent.disk {
        Some(disk) => do_io(&part, disk, piece, to),
        None => {}
    }
}
