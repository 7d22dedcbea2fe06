ghost use Rattle.std.specs.Prelude.{◌≡◌, ◌≤◌, ◌+◌, length};
ghost use Rattle.mem_bdev.specs.Texts.{HasRoom, appended};
ghost use Rattle.io_commands.specs.Jobs.{HasData, blocks_after, bytes_read, end_of, given_len};

use mem_bdev::{Buffer, Disk, MAX_TRANSFER};

/// What a held command does: its disk's number in the plan, from 0, the first block, and how many blocks.
#[derive(Clone, Copy, Debug, PartialEq, Eq)]
pub enum Job {
    Read { disk: u8, lba: u64, count: u32 },
    Write { disk: u8, lba: u64, count: u32 },
    Zero { disk: u8, lba: u64, count: u32 },
    Flush { disk: u8 },
}

/// What a submitted command gets: the status of its refusal, or a job to be done while it is held.
#[derive(Clone, Copy, Debug, PartialEq, Eq)]
pub enum Admit {
    Refused(u16),
    Run(Job),
}

/// How many bytes a job gives to the host: those of a Read's blocks, else none.
#[inline(always)]
pub fn given_len(job: &Job, disk: &Disk) -> u32
    requires { given_len job.now disk.now.shift ≤ MAX_TRANSFER }
    ensures { result ≡ given_len job.now disk.now.shift }
{
    match *job {
        Job::Read {
            disk: _,
            lba: _,
            count,
        } => (count as usize * disk.block_size()) as u32,
        Job::Write { .. } | Job::Zero { .. } | Job::Flush { .. } => 0,
    }
}

/// Does a job on its disk (NVM Command Set 1.0, 3.2): a Read's blocks are appended to `to`, which has room for them; a
/// Write puts its data there, a Write Zeroes zeros. Always does it, and takes no memory.
#[inline(always)]
pub fn do_io(job: &Job, disk: &mut Disk, payload: &[u8], to: &mut Buffer)
    requires inside { end_of job.now ≤ length disk.old.blocks }
    requires data { HasData job.now disk.old.shift (length payload.now) }
    requires room { HasRoom to.old (given_len job.now disk.old.shift) }
    ensures disk { disk.new ≡ blocks_after disk.old job.now payload.now }
    ensures bytes { to.new ≡ appended to.old (bytes_read disk.old job.now) }
    ensures len { length to.new.bytes ≡ length to.old.bytes + given_len job.now disk.old.shift }
{
    match *job {
        Job::Read {
            disk: _,
            lba,
            count,
        } => disk.append(lba, u64::from(count), to),
        Job::Write {
            disk: _,
            lba,
            count: _,
        } => disk.write(lba, payload),
        Job::Zero {
            disk: _,
            lba,
            count,
        } => disk.zero(lba, u64::from(count)),
        Job::Flush { disk: _ } => {}
    }
}
