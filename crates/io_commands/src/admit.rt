ghost use Rattle.std.specs.Prelude.{◌≡◌, ◌≢◌, ◌≤◌, ◌+◌, IsTrue};
ghost use Rattle.sqe_cqe.specs.declared.codes.TheConstants.{FLUSH};
ghost use Rattle.sqe_cqe.specs.Answers.{view_of};
ghost use Rattle.io_commands.specs.Admission.{FitsSeen, block_count, by_bars, by_namespace, by_range, by_state, first_block, io_admission, is_io, job_of, moves_data};

use crate::jobs::{Admit, Job};
use mem_bdev::MAX_TRANSFER;
use sqe_cqe::{
    ANA_INACCESSIBLE, ANA_PERSISTENT_LOSS, ANA_TRANSITION, Ana, Bound, COMMAND_SEQUENCE_ERROR,
    DATA_SGL_LENGTH_INVALID, FLUSH, INTERNAL_PATH_ERROR, INVALID_FIELD, INVALID_NAMESPACE,
    INVALID_OPCODE, LBA_OUT_OF_RANGE, Look, NsRow, READ, SGL, Seen, Sqe, WRITE, WRITE_ZEROES,
};

fn is_io_opcode(opcode: u8) -> bool
    ensures { result ≡ is_io opcode }
{
    opcode == FLUSH || opcode == WRITE || opcode == READ || opcode == WRITE_ZEROES
}

fn moves(opcode: u8) -> bool
    ensures { result ≡ moves_data opcode }
{
    opcode == WRITE || opcode == READ
}

fn start_of(e: &Sqe) -> u64
    ensures { result ≡ first_block e.now }
{
    u64::from(e.cdw10) + u64::from(e.cdw11) * 0x1_0000_0000
}

fn count_of(e: &Sqe) -> u32
    ensures value { result ≡ block_count e.now }
    ensures small { result ≤ 65536 }
{
    e.cdw12 % 0x1_0000 + 1
}

// The job of a command that passed all checks.
fn job_for(e: &Sqe, row: &NsRow) -> Job
    ensures { result ≡ job_of e.now row.now }
{
    let disk = row.disk;
    let lba = start_of(e);
    let count = count_of(e);
    if e.opcode == WRITE {
        Job::Write { disk, lba, count }
    } else if e.opcode == READ {
        Job::Read { disk, lba, count }
    } else if e.opcode == WRITE_ZEROES {
        Job::Zero { disk, lba, count }
    } else {
        Job::Flush { disk }
    }
}

// Range, SGL length, largest transfer.
#[tactic(auto, unfolding(crate::specs::Admission::by_range))]
fn check_range(e: &Sqe, row: &NsRow) -> Admit
    requires { row.now.shift ≤ 12 }
    ensures { result ≡ by_range e.now row.now }
{
    let start = start_of(e);
    let count = count_of(e);
    if e.opcode != FLUSH && (start > row.blocks || u64::from(count) > row.blocks - start) {
        return Admit::Refused(LBA_OUT_OF_RANGE);
    }
    let named = if moves(e.opcode) {
        count << row.shift
    } else {
        0
    };
    if e.sgl_len != named {
        return Admit::Refused(DATA_SGL_LENGTH_INVALID);
    }
    if moves(e.opcode) && e.sgl_len as usize > MAX_TRANSFER {
        return Admit::Refused(INVALID_FIELD);
    }
    Admit::Run(job_for(e, row))
}

// What bars the controller, and the checks after that.
#[tactic(auto, unfolding(crate::specs::Admission::by_bars))]
fn check_bars(e: &Sqe, row: &NsRow, status: u16) -> Admit
    requires { row.now.shift ≤ 12 }
    ensures { result ≡ by_bars e.now row.now status }
{
    if status != 0 {
        return Admit::Refused(status);
    }
    check_range(e, row)
}

// The state of the namespace's group, and the checks after that.
#[tactic(auto, unfolding(crate::specs::Admission::by_state))]
fn check_state<L: Look>(b: &Bound, e: &Sqe, row: &NsRow, look: &mut L) -> Admit
    requires { row.now.shift ≤ 12 }
    ensures value { let v = view_of (L.told (L.behind look.old)) b.now in result ≡ by_state e.now row.now (v.ana row.now.group) (v.bars e.now.nsid e.now.opcode) }
    ensures behind { L.behind look.new ≡ L.behind look.old }
    ensures loads { L.loads look.new ≤ L.loads look.old + 2 }
{
    match look.ana(b.port, u32::from(row.group)) {
        Ana::Inaccessible => Admit::Refused(ANA_INACCESSIBLE),
        Ana::PersistentLoss => Admit::Refused(ANA_PERSISTENT_LOSS),
        Ana::Changing => Admit::Refused(ANA_TRANSITION),
        Ana::Optimized | Ana::NonOptimized => {
            let status = look.bars(b.ctrl, b.sub, e.nsid, e.opcode);
            check_bars(e, row, status)
        }
    }
}

// What stands at the NSID, and the checks after that.
#[tactic(auto, unfolding(crate::specs::Admission::by_namespace))]
fn check_namespace<L: Look>(b: &Bound, e: &Sqe, look: &mut L) -> Admit
    ensures value { let v = view_of (L.told (L.behind look.old)) b.now in result ≡ by_namespace v e.now (v.ns e.now.nsid) }
    ensures behind { L.behind look.new ≡ L.behind look.old }
    ensures loads { L.loads look.new ≤ L.loads look.old + 14 }
{
    match look.ns(b.sub, e.nsid) {
        Seen::NotConfigured => Admit::Refused(INVALID_NAMESPACE),
        Seen::Off => Admit::Refused(INTERNAL_PATH_ERROR),
        Seen::On(row) => check_state(b, e, &row, look),
    }
}

// All checks in their order.
#[tactic(auto, unfolding(crate::specs::Admission::io_admission))]
fn check_all<L: Look>(b: &Bound, e: &Sqe, look: &mut L) -> Admit
    ensures value { result ≡ io_admission (view_of (L.told (L.behind look.old)) b.now) e.now }
    ensures behind { L.behind look.new ≡ L.behind look.old }
    ensures loads { L.loads look.new ≤ L.loads look.old + 15 }
{
    if !is_io_opcode(e.opcode) {
        return Admit::Refused(INVALID_OPCODE);
    }
    if e.flags != SGL {
        return Admit::Refused(INVALID_FIELD);
    }
    if !look.ready(b.ctrl) {
        return Admit::Refused(COMMAND_SEQUENCE_ERROR);
    }
    check_namespace(b, e, look)
}

/// Whether a command of a connected I/O queue is held, and if not, the status of the first check that fails: opcode,
/// flags, controller ready, NSID, state of the ANA group, what bars the controller, range, SGL length, largest transfer.
///
/// SLBA + NLB + 1 is a whole number, so no range wraps. Loads at most fifteen words, and takes no memory.
pub fn admit_io<L: Look>(b: &Bound, e: &Sqe, look: &mut L) -> Admit
    ensures value { result ≡ io_admission (view_of (L.told (L.behind look.old)) b.now) e.now }
    // A job is one of this entry on the disk of the namespace that is seen, and fits it.
    ensures fits { FitsSeen e.now ((view_of (L.told (L.behind look.old)) b.now).ns e.now.nsid) result }
    ensures behind { L.behind look.new ≡ L.behind look.old }
    ensures loads { L.loads look.new ≤ L.loads look.old + 15 }
{
    check_all(b, e, look)
}
