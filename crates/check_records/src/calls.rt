// The calls of a queue, each with the bytes that it gives in a buffer of its own.
ghost use Rattle.std.specs.Prelude.{◌≡◌, ◌≢◌, ◌≤◌, IsTrue, true, length, List, ℕ};
ghost use Rattle.mem_bdev.specs.declared.limits.TheConstants.{MAX_TRANSFER};
ghost use Rattle.sqe_cqe.specs.Sqe.{direction_of, payload_len, host_len};
ghost use Rattle.sqe_cqe.specs.declared.codes.TheConstants.{FABRICS};
ghost use Rattle.sqe_cqe.specs.declared.way.Direction.TheVariants.{ToController};
ghost use Rattle.tree_target.specs.Kept.{HasHeldData, HasQueue, IsHolding, IsIdle, LeavesOthers, held_len, holds};
ghost use Rattle.tree_target.specs.Model.{Submit, Execute, Poll, Control};
ghost use Rattle.tree_target.specs.Stands.{Simulates};

use mem_bdev::Buffer;
use sqe_cqe::Sqe;
use tree_target::{Reply, Target};

/// A submit.
pub fn submit(target: &mut Target, queue: u32, number: u32, e: &Sqe, buffer: &mut Buffer) -> Reply
    requires queue { HasQueue target.old queue }
    requires idle { IsIdle target.old queue }
    requires room { MAX_TRANSFER ≤ buffer.old.room }
    ensures does { Simulates target.old (Submit queue number e.now) result buffer.new.bytes
        target.new }
    ensures held { result ≡ Reply.Held →
        IsHolding target.new queue number (payload_len e.now) (host_len e.now) }
    ensures answered { result ≢ Reply.Held → IsIdle target.new queue }
    ensures others { LeavesOthers queue target.old target.new }
    ensures room { buffer.new.room ≡ buffer.old.room }
{
    buffer.clear();
    if target.is_admin(queue) {
        return target.submit_admin(queue, number, e, buffer);
    }
    target.submit(queue, number, e)
}

/// The execute of the command that is held.
pub fn execute(
    target: &mut Target,
    queue: u32,
    number: u32,
    payload: &[u8],
    buffer: &mut Buffer,
) -> Reply
    requires held { IsTrue (holds target.old queue number) }
    requires data { HasHeldData target.old queue number (length payload.now) }
    requires short { held_len target.old queue number ≤ MAX_TRANSFER }
    requires room { MAX_TRANSFER ≤ buffer.old.room }
    ensures does { Simulates target.old (Execute queue number payload.now) result
        buffer.new.bytes target.new }
    ensures idle { IsIdle target.new queue }
    ensures others { LeavesOthers queue target.old target.new }
    ensures room { buffer.new.room ≡ buffer.old.room }
{
    buffer.clear();
    target.execute(queue, number, payload, buffer)
}

/// A poll.
pub fn poll(target: &mut Target, queue: u32, buffer: &mut Buffer) -> Reply
    requires idle { IsIdle target.old queue }
    ensures does { Simulates target.old (Poll queue) result buffer.new.bytes target.new }
    ensures idle { IsIdle target.new queue }
    ensures others { LeavesOthers queue target.old target.new }
    ensures room { buffer.new.room ≡ buffer.old.room }
{
    buffer.clear();
    target.poll(queue)
}

/// A fabrics command.
pub fn control(
    target: &mut Target,
    queue: u32,
    number: u32,
    e: &Sqe,
    payload: &[u8],
    buffer: &mut Buffer,
) -> Reply
    requires opcode { e.now.opcode ≡ FABRICS }
    requires payload { direction_of e.now ≡ ToController →
        length payload.now ≡ e.now.sgl_len }
    requires queue { HasQueue target.old queue }
    requires idle { IsIdle target.old queue }
    ensures does { Simulates target.old (Control queue number e.now payload.now) result
        buffer.new.bytes target.new }
    ensures idle { IsIdle target.new queue }
    ensures others { LeavesOthers queue target.old target.new }
    ensures room { buffer.new.room ≡ buffer.old.room }
{
    buffer.clear();
    target.control(queue, number, e, payload)
}
