// The calls of one queue.
ghost use Rattle.std.specs.Prelude.{◌≡◌, ◌≤◌, ◌<◌, ◌+◌, ◌*◌, ◌^◌, ◌++◌, ◌≢◌, [], true, false, length, List, ℕ};
ghost use Rattle.mem_bdev.specs.Texts.{HasRoom, appended};
ghost use Rattle.mem_bdev.specs.declared.limits.TheConstants.{MAX_TRANSFER};
ghost use Rattle.sqe_cqe.specs.Sqe.{host_len, payload_len};
ghost use Rattle.sqe_cqe.specs.declared.codes.TheConstants.{FABRICS};
ghost use Rattle.io_commands.specs.declared.jobs.Admit.TheVariants.{Run};
ghost use Rattle.run_records.specs.Records.{head_bytes, record_bytes};
ghost use Rattle.plan_files.specs.Rooms.{capsule_room};
ghost use Rattle.tree_target.specs.Kept.{AdmitsOn, HasQueue, IsIdle, LeavesOthers, admission_by, given_room, is_admin_in, is_poll_reply, job_bytes};
ghost use Rattle.tree_target.specs.Model.{Submit};
ghost use Rattle.tree_target.specs.Stands.{RunsAtOnce};
ghost use Rattle.run_transcript.specs.Printing.{head_of};
ghost use Rattle.run_serving.specs.Goes.{ServesFinal, ServesOne, ServesPoll, ServesThrough, SubmitsInto};

use crate::output::{Output, head};
use io_commands::{Admit, Job};
use mem_bdev::Buffer;
use run_records::{HEAD_BYTES, Head, Kind, write_head};
use sqe_cqe::{Direction, FABRICS, Sqe, direction};
use tree_target::{Reply, Target};

// Answers a fabrics command.
pub(crate) fn control_one(
    target: &mut Target,
    queue: u32,
    number: u32,
    entry: &Sqe,
    payload: &[u8],
    place: u32,
    output: &mut Output,
)
    requires queue { HasQueue target.old queue }
    requires idle { (q : ℕ) → IsIdle target.old q }
    requires opcode { entry.now.opcode ≡ FABRICS }
    requires payload { length payload.now ≡ payload_len entry.now }
    requires few { output.old.calls < 4294967295 }
    requires room { HasRoom output.old.records HEAD_BYTES }
    ensures idle { (q : ℕ) → IsIdle target.new q }
    ensures queues { length target.new.bindings ≡ length target.old.bindings }
    ensures calls { output.new.calls ≡ output.old.calls + 1 }
    ensures len { length output.new.records.bytes ≡ length output.old.records.bytes + HEAD_BYTES }
    ensures room { output.new.records.room ≡ output.old.records.room }
    ensures serves { ServesOne queue number entry.now payload.now target.old output.old place
        target.new output.new (place + 1) }
{
    let reply = target.control(queue, number, entry, payload);
    output.add(place, Kind::Control, number, &reply);
}

// The heads of two records, one behind the other.
#[inline(always)]
fn both_heads(first: &Head, second: &Head) -> [u8; 64]
    ensures { result ≡ head_bytes first.now ++ head_bytes second.now }
{
    let mut bytes = [0; 64];
    bytes[..HEAD_BYTES].copy_from_slice(&write_head(first));
    bytes[HEAD_BYTES..].copy_from_slice(&write_head(second));
    bytes
}

// How many bytes of data for the host an entry names.
#[tactic(auto, unfolding(sqe_cqe::specs::Sqe::host_len))]
fn host_len(e: &Sqe) -> u32
    ensures { result ≡ host_len e.now }
{
    match direction(e) {
        Direction::ToHost => e.sgl_len,
        Direction::Nothing | Direction::ToController | Direction::Both => 0,
    }
}

// Runs a command that was admitted with this job, and appends two records: that of its submit, and
// that of its execute, with what a Read reads behind the head, straight from the disk. Both heads
// are put at once. Tells how many bytes were read.
fn run_into(
    target: &mut Target,
    queue: u32,
    number: u32,
    entry: &Sqe,
    job: &Job,
    payload: &[u8],
    place: u32,
    to: &mut Buffer,
) -> (Reply, u32)
    requires queue { HasQueue target.old queue }
    requires idle { IsIdle target.old queue }
    requires not_admin { is_admin_in target.old queue ≡ false }
    requires admitted { admission_by target.old queue entry.now ≡ Run job.now }
    requires fits { AdmitsOn target.old.blocks entry.now job.now }
    requires payload { length payload.now ≡ payload_len entry.now }
    requires place { place + 1 < 2 ^ 32 }
    requires room { HasRoom to.old (HEAD_BYTES + (HEAD_BYTES + host_len entry.now)) }
    ensures idle { IsIdle target.new queue }
    ensures bindings { target.new.bindings ≡ target.old.bindings }
    ensures others { LeavesOthers queue target.old target.new }
    ensures runs { RunsAtOnce target.old queue number entry.now payload.now result.0
        (job_bytes target.old.blocks job.now) target.new }
    ensures given { result.1 ≡ length (job_bytes target.old.blocks job.now) }
    ensures small { result.1 ≡ host_len entry.now }
    ensures appends { to.new ≡ appended (appended to.old
        (record_bytes (head_of place Kind.Submit number Reply.Held 0) []))
        (record_bytes (head_of (place + 1) Kind.Execute number result.0 result.1)
        (job_bytes target.old.blocks job.now)) }
    ensures len { length to.new.bytes ≡ length to.old.bytes
        + (HEAD_BYTES + (HEAD_BYTES + host_len entry.now)) }
{
    let reply = target.success(queue, entry);
    let given = host_len(entry);
    let submitted = head(place, Kind::Submit, number, &Reply::Held, 0);
    let executed = head(place + 1, Kind::Execute, number, &reply, given);
    to.put(&both_heads(&submitted, &executed));
    target.run_at_once(queue, number, entry, job, payload, to);
    (reply, given)
}

// Runs a command that was admitted with this job: it is held at a place, executed at the next one,
// and both are recorded.
fn run_one(
    target: &mut Target,
    queue: u32,
    number: u32,
    entry: &Sqe,
    job: &Job,
    payload: &[u8],
    place: u32,
    output: &mut Output,
)
    requires queue { HasQueue target.old queue }
    requires idle { IsIdle target.old queue }
    requires not_admin { is_admin_in target.old queue ≡ false }
    requires opcode { entry.now.opcode ≢ FABRICS }
    requires admitted { admission_by target.old queue entry.now ≡ Run job.now }
    requires fits { AdmitsOn target.old.blocks entry.now job.now }
    requires payload { length payload.now ≡ payload_len entry.now }
    requires short { length payload.now < 2 ^ 32 }
    requires place { place + 1 < 2 ^ 32 }
    requires few { output.old.calls + 1 < 4294967295 }
    requires room { HasRoom output.old.records (HEAD_BYTES + (HEAD_BYTES + host_len entry.now)) }
    ensures idle { IsIdle target.new queue }
    ensures bindings { target.new.bindings ≡ target.old.bindings }
    ensures others { LeavesOthers queue target.old target.new }
    ensures calls { output.new.calls ≡ output.old.calls + 1 + 1 }
    ensures len { length output.new.records.bytes ≡ length output.old.records.bytes
        + (HEAD_BYTES + (HEAD_BYTES + host_len entry.now)) }
    ensures room { output.new.records.room ≡ output.old.records.room }
    ensures serves { ServesOne queue number entry.now payload.now target.old output.old place
        target.new output.new (place + 1 + 1) }
{
    output.count(Kind::Submit, &Reply::Held, 0, 0);
    let records = &mut output.records;
    let (reply, given) = run_into(target, queue, number, entry, job, payload, place, records);
    output.count(Kind::Execute, &reply, payload.len(), given as usize);
}

// Serves a command of a queue that isn't a connected admin queue. Gives the next place.
fn command_one(
    target: &mut Target,
    queue: u32,
    number: u32,
    entry: &Sqe,
    payload: &[u8],
    place: u32,
    output: &mut Output,
) -> u32
    requires queue { HasQueue target.old queue }
    requires idle { (q : ℕ) → IsIdle target.old q }
    requires not_admin { is_admin_in target.old queue ≡ false }
    requires opcode { entry.now.opcode ≢ FABRICS }
    requires payload { length payload.now ≡ payload_len entry.now }
    requires short { length payload.now < 2 ^ 32 }
    requires few { output.old.calls + 1 < 4294967295 }
    requires places { place + 2 < 2 ^ 32 }
    requires room { HasRoom output.old.records (capsule_room entry.now) }
    ensures places { result ≤ place + 2 }
    ensures idle { (q : ℕ) → IsIdle target.new q }
    ensures queues { length target.new.bindings ≡ length target.old.bindings }
    ensures calls { output.new.calls ≤ output.old.calls + 2 }
    ensures len { length output.new.records.bytes ≤
        length output.old.records.bytes + capsule_room entry.now }
    ensures room { output.new.records.room ≡ output.old.records.room }
    ensures serves { ServesOne queue number entry.now payload.now target.old output.old place
        target.new output.new result }
{
    match target.admit(queue, entry) {
        Admit::Refused(status) => {
            let reply = target.refuse(queue, number, entry, status);
            output.add(place, Kind::Submit, number, &reply);
            place + 1
        }
        Admit::Run(job) => {
            run_one(target, queue, number, entry, &job, payload, place, output);
            place + 1 + 1
        }
    }
}

// Submits a command of a connected admin queue, and appends its record. How many bytes of data the
// command gives isn't known before, so the head is written over zeros that were put for it. Tells
// how many bytes they were.
fn submit_admin_into(
    target: &mut Target,
    queue: u32,
    number: u32,
    entry: &Sqe,
    place: u32,
    to: &mut Buffer,
) -> (Reply, u32)
    requires queue { HasQueue target.old queue }
    requires idle { IsIdle target.old queue }
    requires admin { is_admin_in target.old queue ≡ true }
    requires room { HasRoom to.old (HEAD_BYTES + given_room entry.now) }
    ensures idle { IsIdle target.new queue }
    ensures bindings { target.new.bindings ≡ target.old.bindings }
    ensures others { LeavesOthers queue target.old target.new }
    ensures answered { result.0 ≢ Reply.Held }
    ensures does { SubmitsInto target.old (Submit queue number entry.now) result.0 result.1 place
        number to.old to.new target.new }
    ensures small { result.1 ≤ MAX_TRANSFER }
    ensures len { length to.new.bytes ≤ length to.old.bytes + (HEAD_BYTES + given_room entry.now) }
{
    let at = to.len();
    to.put(&[0; HEAD_BYTES]);
    let reply = target.submit_admin(queue, number, entry, to);
    let given = (to.len() - at - HEAD_BYTES) as u32;
    to.write_at(
        at,
        &write_head(&head(place, Kind::Submit, number, &reply, given)),
    );
    (reply, given)
}

// Submits a command of a connected admin queue.
fn submit_admin_one(
    target: &mut Target,
    queue: u32,
    number: u32,
    entry: &Sqe,
    place: u32,
    output: &mut Output,
)
    requires queue { HasQueue target.old queue }
    requires idle { IsIdle target.old queue }
    requires admin { is_admin_in target.old queue ≡ true }
    requires opcode { entry.now.opcode ≢ FABRICS }
    requires few { output.old.calls < 4294967295 }
    requires room { HasRoom output.old.records (HEAD_BYTES + given_room entry.now) }
    ensures idle { IsIdle target.new queue }
    ensures bindings { target.new.bindings ≡ target.old.bindings }
    ensures others { LeavesOthers queue target.old target.new }
    ensures calls { output.new.calls ≡ output.old.calls + 1 }
    ensures len { length output.new.records.bytes ≤
        length output.old.records.bytes + (HEAD_BYTES + given_room entry.now) }
    ensures room { output.new.records.room ≡ output.old.records.room }
    ensures serves { ServesThrough queue number entry.now target.old output.old place target.new
        output.new (place + 1) }
{
    let records = &mut output.records;
    let (reply, given) = submit_admin_into(target, queue, number, entry, place, records);
    output.count(Kind::Submit, &reply, 0, given as usize);
}

// Polls a connected admin queue that has taken so many capsules. The reply says whether there was
// an event.
pub(crate) fn poll_one(
    target: &mut Target,
    queue: u32,
    taken: u32,
    place: u32,
    output: &mut Output,
) -> Reply
    requires admin { is_admin_in target.old queue ≡ true }
    requires idle { IsIdle target.old queue }
    requires few { output.old.calls < 4294967295 }
    requires room { HasRoom output.old.records HEAD_BYTES }
    ensures replies { is_poll_reply result ≡ true }
    ensures idle { IsIdle target.new queue }
    ensures bindings { target.new.bindings ≡ target.old.bindings }
    ensures others { LeavesOthers queue target.old target.new }
    ensures calls { output.new.calls ≡ output.old.calls + 1 }
    ensures len { length output.new.records.bytes ≡ length output.old.records.bytes + HEAD_BYTES }
    ensures room { output.new.records.room ≡ output.old.records.room }
    ensures serves { ServesPoll queue taken target.old output.old place target.new output.new
        (place + 1) }
    ensures last { ServesFinal queue taken result target.old output.old place target.new
        output.new (place + 1) }
{
    let reply = target.poll(queue);
    output.add(place, Kind::Poll, taken, &reply);
    reply
}

// Serves a command of a connected admin queue, and polls once. Gives the next place.
fn admin_one(
    target: &mut Target,
    queue: u32,
    number: u32,
    entry: &Sqe,
    place: u32,
    output: &mut Output,
) -> u32
    requires queue { HasQueue target.old queue }
    requires idle { (q : ℕ) → IsIdle target.old q }
    requires admin { is_admin_in target.old queue ≡ true }
    requires opcode { entry.now.opcode ≢ FABRICS }
    requires number { number + 1 < 2 ^ 32 }
    requires few { output.old.calls + 1 < 4294967295 }
    requires places { place + 2 < 2 ^ 32 }
    requires room { HasRoom output.old.records (capsule_room entry.now) }
    ensures places { result ≤ place + 2 }
    ensures idle { (q : ℕ) → IsIdle target.new q }
    ensures queues { length target.new.bindings ≡ length target.old.bindings }
    ensures calls { output.new.calls ≤ output.old.calls + 2 }
    ensures len { length output.new.records.bytes ≤
        length output.old.records.bytes + capsule_room entry.now }
    ensures room { output.new.records.room ≡ output.old.records.room }
    ensures serves { (payload : List ℕ) → ServesOne queue number entry.now payload target.old
        output.old place target.new output.new result }
{
    submit_admin_one(target, queue, number, entry, place, output);
    poll_one(target, queue, number + 1, place + 1, output);
    place + 1 + 1
}

// Serves a capsule. Gives the next place.
pub(crate) fn serve_one(
    target: &mut Target,
    queue: u32,
    number: u32,
    entry: &Sqe,
    payload: &[u8],
    place: u32,
    output: &mut Output,
) -> u32
    requires queue { HasQueue target.old queue }
    requires idle { (q : ℕ) → IsIdle target.old q }
    requires number { number + 1 < 2 ^ 32 }
    requires payload { length payload.now ≡ payload_len entry.now }
    requires short { length payload.now < 2 ^ 32 }
    requires few { output.old.calls + 1 < 4294967295 }
    requires places { place + 2 < 2 ^ 32 }
    requires room { HasRoom output.old.records (capsule_room entry.now) }
    ensures places { result ≤ place + 2 }
    ensures idle { (q : ℕ) → IsIdle target.new q }
    ensures queues { length target.new.bindings ≡ length target.old.bindings }
    ensures calls { output.new.calls ≤ output.old.calls + 2 }
    ensures len { length output.new.records.bytes ≤
        length output.old.records.bytes + capsule_room entry.now }
    ensures room { output.new.records.room ≡ output.old.records.room }
    ensures serves { ServesOne queue number entry.now payload.now target.old output.old place
        target.new output.new result }
{
    if entry.opcode == FABRICS {
        control_one(target, queue, number, entry, payload, place, output);
        return place + 1;
    }
    if target.is_admin(queue) {
        admin_one(target, queue, number, entry, place, output)
    } else {
        command_one(target, queue, number, entry, payload, place, output)
    }
}
