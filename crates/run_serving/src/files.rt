// One queue's file: its front, the rest, and the final polls.
ghost use Rattle.std.specs.Prelude.{◌≡◌, ◌≤◌, ◌<◌, ◌+◌, ◌*◌, ◌^◌, IsTrue, true, false, length, take, drop, List, ℕ};
ghost use Rattle.sqe_cqe.specs.Sqe.{payload_len};
ghost use Rattle.plan_files.specs.Capsules.{IsWholeIn, capsules_in};
ghost use Rattle.mem_bdev.specs.declared.limits.TheConstants.{MAX_TRANSFER};
ghost use Rattle.tree_target.specs.Kept.{HasQueue, IsIdle, is_answered, is_poll_reply};
ghost use Rattle.tree_target.specs.declared.calls.Reply.TheVariants.{NoEvent};
ghost use Rattle.run_transcript.specs.Served.{front_len};
ghost use Rattle.run_serving.specs.Goes.{HasAll, HasEnded, HasFront, HasNothing, Makes};
ghost use Rattle.run_serving.specs.Readiness.{IsReadyAt, IsServable, all_capsules, capsules_of, front_of, nothing_of, opcode_at};

use crate::calls::{control_one, poll_one, serve_one};
use crate::output::Output;
use plan_files::Capsule;
use run_transcript::CapsuleFile;
use sqe_cqe::FABRICS;
use tree_target::{Reply, Target};

// How many event requests can wait on an admin queue, and one poll more.
pub(crate) const MAX_POLLS: u32 = 5;

// How many fabrics commands capsules begin with.
fn front_len(capsules: &[Capsule]) -> usize
    ensures value { (bytes : List ℕ) → result ≡ front_len (capsules_in bytes capsules.now) }
    ensures within { result ≤ length capsules.now }
    ensures fabrics { (k : ℕ) → k < result → opcode_at capsules.now k ≡ FABRICS }
{
    for (number, capsule) in capsules.iter().enumerate() {
        if capsule.sqe.opcode != FABRICS {
            return number;
        }
    }
    capsules.len()
}

// The data of a capsule.
#[inline(always)]
fn payload_of<'a>(bytes: &'a [u8], capsule: &Capsule) -> &'a [u8]
    requires { IsWholeIn bytes.now capsule.now }
    ensures value { result.now ≡ take capsule.now.data_len (drop capsule.now.data_at bytes.now) }
    ensures len { length result.now ≡ payload_len capsule.now.sqe }
    ensures short { length result.now ≤ MAX_TRANSFER }
{
    let end = capsule.data_at + capsule.data_len;
    &bytes[capsule.data_at..end]
}

// Serves the front of a file. Gives the next place.
pub(crate) fn serve_front(
    target: &mut Target,
    queue: u32,
    file: &CapsuleFile,
    place: u32,
    output: &mut Output,
) -> u32
    requires queue { HasQueue target.old queue }
    requires idle { (q : ℕ) → IsIdle target.old q }
    requires servable { IsServable file.now }
    requires ready { IsReadyAt file.now (nothing_of file.now) output.old }
    requires places { place + 65536 < 2 ^ 32 }
    ensures places { result ≡ place + front_of file.now }
    ensures few { result ≤ place + 65536 }
    ensures idle { (q : ℕ) → IsIdle target.new q }
    ensures queues { length target.new.bindings ≡ length target.old.bindings }
    ensures ready { IsReadyAt file.now (front_of file.now) output.new }
    ensures serves { Makes false queue (capsules_of file.now) HasNothing target.old output.old place
        HasFront target.new output.new result }
{
    let front = front_len(&file.capsules);
    for number in 0..front {
        let capsule = &file.capsules[number];
        let payload = payload_of(&file.bytes, capsule);
        let place = place + number as u32;
        control_one(
            target,
            queue,
            number as u32,
            &capsule.sqe,
            payload,
            place,
            output,
        );
    }
    place + front as u32
}

// Serves a file behind its front. Gives the next place.
pub(crate) fn serve_rest(
    target: &mut Target,
    queue: u32,
    file: &CapsuleFile,
    place: u32,
    output: &mut Output,
) -> u32
    requires queue { HasQueue target.old queue }
    requires idle { (q : ℕ) → IsIdle target.old q }
    requires servable { IsServable file.now }
    requires ready { IsReadyAt file.now (front_of file.now) output.old }
    requires places { place + 131072 < 2 ^ 32 }
    ensures few { result ≤ place + 131072 }
    ensures idle { (q : ℕ) → IsIdle target.new q }
    ensures queues { length target.new.bindings ≡ length target.old.bindings }
    ensures ready { IsReadyAt file.now (all_capsules file.now) output.new }
    ensures serves { Makes false queue (capsules_of file.now) HasFront target.old output.old place
        HasAll target.new output.new result }
{
    let mut next = place;
    let front = front_len(&file.capsules);
    for number in front..file.capsules.len() {
        let capsule = &file.capsules[number];
        let payload = payload_of(&file.bytes, capsule);
        next = serve_one(
            target,
            queue,
            number as u32,
            &capsule.sqe,
            payload,
            next,
            output,
        );
    }
    next
}

fn is_no_event(reply: &Reply) -> bool
    ensures none { IsTrue result → reply.now ≡ NoEvent }
    ensures event { result ≡ false → is_poll_reply reply.now ≡ true → is_answered reply.now ≡ true }
{
    match reply {
        Reply::NoEvent => true,
        Reply::Answered(_)
        | Reply::Held
        | Reply::Waiting
        | Reply::Accepted
        | Reply::Errno(_)
        | Reply::Ended => false,
    }
}

// The final polls of a queue, where it is a connected admin queue. Gives the next place.
pub(crate) fn poll_to_end(
    target: &mut Target,
    queue: u32,
    file: &CapsuleFile,
    place: u32,
    output: &mut Output,
) -> u32
    requires queue { HasQueue target.old queue }
    requires idle { (q : ℕ) → IsIdle target.old q }
    requires servable { IsServable file.now }
    requires ready { IsReadyAt file.now (all_capsules file.now) output.old }
    requires places { place + MAX_POLLS < 2 ^ 32 }
    ensures few { result ≤ place + MAX_POLLS }
    ensures idle { (q : ℕ) → IsIdle target.new q }
    ensures queues { length target.new.bindings ≡ length target.old.bindings }
    ensures serves { Makes true queue (capsules_of file.now) HasAll target.old output.old place
        HasEnded target.new output.new result }
{
    if !target.is_admin(queue) {
        return place;
    }
    let taken = file.capsules.len() as u32;
    for polls in 0..MAX_POLLS {
        let reply = poll_one(target, queue, taken, place + polls, output);
        if is_no_event(&reply) {
            return place + polls + 1;
        }
    }
    place + MAX_POLLS
}
