// The held commands, and the work of one on its disk.
ghost use Rattle.std.specs.Prelude.{◌≡◌, ◌<◌, ◌≤◌, ◌+◌, find, position, length, map, slice_get, is_some, IfSome, IsTrue};
ghost use Rattle.std.specs.List.{list_any, remove, slice_index_or};
ghost use Rattle.std.specs.Vec.{vec_capacity, vec_len};
ghost use Rattle.mem_bdev.specs.Texts.{HasRoom, appended};
ghost use Rattle.io_commands.specs.Jobs.{disk_of};
ghost use Rattle.tree_target.specs.Kept.{FitsOn, HasDataOn, given_on, is_of};
ghost use Rattle.tree_target.specs.Model.{is_command};
ghost use Rattle.tree_target.specs.Steps.{is_on, none_on, read_of, without, worked};

use crate::calls::Command;
use io_commands::{Job, do_io, given_len};
use mem_bdev::{Buffer, Disk};

// The number of a job's disk.
fn number_of_disk(job: &Job) -> u8
    ensures { result ≡ disk_of job.now }
{
    match job {
        Job::Read { disk, .. }
        | Job::Write { disk, .. }
        | Job::Zero { disk, .. }
        | Job::Flush { disk } => *disk,
    }
}

fn is_used(held: &[Command], disk: u8) -> bool
    ensures { result ≡ list_any (is_on disk) held.now }
{
    held.iter().any(|h| number_of_disk(&h.job) == disk)
}

// Whether no command is held on a disk.
pub(crate) fn is_free(held: &[Command], disk: Option<u8>) -> bool
    ensures { result ≡ none_on held.now disk }
{
    match disk {
        None => true,
        Some(number) => !is_used(held, number),
    }
}

// Inlined: an Execute looks for its command four times.
#[inline(always)]
fn position_of(held: &[Command], queue: u32, number: u32) -> Option<usize>
    ensures { result ≡ position (is_command queue number) held.now }
{
    held.iter()
        .position(|h| h.queue == queue && h.number == number)
}

// The command of a capsule, where it is held.
#[inline(always)]
pub(crate) fn find_command(held: &[Command], queue: u32, number: u32) -> Option<Command>
    ensures { result ≡ find (is_command queue number) held.now }
{
    match position_of(held, queue, number) {
        None => None,
        Some(at) => Some(held[at]),
    }
}

// The command of a queue, where it holds one.
pub(crate) fn command_of_queue(held: &[Command], queue: u32) -> Option<Command>
    ensures { result ≡ find (is_of queue) held.now }
{
    match held {
        [] => None,
        [h, rest @ ..] => {
            if h.queue == queue {
                Some(*h)
            } else {
                command_of_queue(rest, queue)
            }
        }
    }
}

// Takes the command at an index out. That is mostly the last one, behind which none has to move.
// Inlined, as what stands around it, so that no copy of the command is made.
#[inline(always)]
fn take_out(held: &mut Vec<Command>, at: usize) -> Command
    requires { at < vec_len held.old }
    ensures value { result ≡ slice_index_or held.old.items at result }
    ensures items { held.new.items ≡ remove held.old.items at }
    ensures capacity { vec_capacity held.new ≡ vec_capacity held.old }
{
    let command = held[at];
    if at + 1 == held.len() {
        let _ = held.pop();
    } else {
        let _ = held.remove(at);
    }
    command
}

// Takes the command of a capsule out, where it is held.
#[inline(always)]
pub(crate) fn take_command(held: &mut Vec<Command>, queue: u32, number: u32) -> Option<Command>
    ensures command { result ≡ find (is_command queue number) held.old.items }
    ensures rest { held.new.items ≡ without (is_command queue number) held.old.items }
    ensures capacity { vec_capacity held.new ≡ vec_capacity held.old }
{
    match position_of(held, queue, number) {
        None => None,
        Some(at) => Some(take_out(held, at)),
    }
}

// How many bytes a job gives to the host, on the disk with its number.
pub(crate) fn given(disks: &[Disk], job: &Job) -> u32
    requires { FitsOn job.now (slice_get disks.now (disk_of job.now)) }
    ensures { result ≡ given_on job.now (slice_get disks.now (disk_of job.now)) }
{
    let number = usize::from(number_of_disk(job));
    given_len(job, &disks[number])
}

// Whether data of this length are what a job takes, on the disk with its number.
pub(crate) fn takes(disks: &[Disk], job: &Job, len: usize) -> bool
    ensures { IsTrue result → HasDataOn job.now (slice_get disks.now (disk_of job.now)) len }
{
    match *job {
        Job::Write {
            disk,
            lba: _,
            count,
        } => match disks.get(usize::from(disk)) {
            None => true,
            Some(d) => len == count as usize * d.block_size(),
        },
        Job::Read { .. } | Job::Zero { .. } | Job::Flush { .. } => true,
    }
}

// Does a job on the disk with its number, and appends what it reads. Inlined: an Execute has no
// other work.
#[inline(always)]
pub(crate) fn work(disks: &mut [Disk], job: &Job, payload: &[u8], to: &mut Buffer)
    requires fits { FitsOn job.now (slice_get disks.old (disk_of job.now)) }
    requires data { HasDataOn job.now (slice_get disks.old (disk_of job.now)) (length payload.now) }
    requires room { HasRoom to.old (given_on job.now (slice_get disks.old (disk_of job.now))) }
    ensures disks { disks.new ≡ worked job.now payload.now disks.old }
    ensures bytes { to.new ≡ appended to.old
        (read_of job.now (slice_get disks.old (disk_of job.now))) }
    ensures len { length to.new.bytes ≡ length to.old.bytes
        + given_on job.now (slice_get disks.old (disk_of job.now)) }
{
    let number = usize::from(number_of_disk(job));
    do_io(job, &mut disks[number], payload, to);
}
