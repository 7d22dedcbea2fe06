// One record of a queue, made again.
ghost use Rattle.std.specs.Prelude.{◌≡◌, ◌≤◌, ◌<◌, Decides, None, length};
ghost use Rattle.mem_bdev.specs.declared.limits.TheConstants.{MAX_TRANSFER};
ghost use Rattle.sqe_cqe.specs.Sqe.{payload_len};
ghost use Rattle.plan_files.specs.Capsules as plan;
ghost use Rattle.response_files.specs.Responses.{IsWholeIn, response_in};
ghost use Rattle.tree_target.specs.Kept.{HasQueue, LeavesOthers};
ghost use Rattle.tree_target.specs.Model as model;
ghost use Rattle.tree_target.specs.Stands.{Simulates, StandsFor};
ghost use Rattle.run_transcript.specs.Turns.{after_entry, next_call};
ghost use Rattle.check_records.specs.Told.{entry_told};
ghost use Rattle.check_records.specs.Cursors.{CanMake, HasMade, IsNumbered, IsReadFile, IsReady, capsules_of, progress_at, step_call};
ghost use Rattle.check_records.specs.Steps.{IsBlankUnlessAnswered, Steps};

use crate::calls::{control, execute, poll, submit};
use crate::cursor::{Cursor, Step};
use crate::differences::difference;
use mem_bdev::Buffer;
use plan_files::Capsule;
use response_files::Record;
use run_records::{Head, Kind};
use run_transcript::CapsuleFile;
use run_verdicts::Field;
use tree_target::{Reply, Target};

// The data of a capsule.
fn payload_of<'a>(bytes: &'a [u8], capsule: &Capsule) -> &'a [u8]
    requires { plan.IsWholeIn bytes.now capsule.now }
    ensures value { result.now ≡ (plan.capsule_in bytes.now capsule.now).payload }
    ensures len { length result.now ≡ payload_len capsule.now.sqe }
{
    &bytes[capsule.data_at..capsule.data_at + capsule.data_len]
}

fn is_same_kind(a: Kind, b: Kind) -> bool
    ensures { Decides result (a ≡ b) }
{
    a == b
}

// Whether a record names this call.
fn names(head: &Head, step: &Step) -> bool
    ensures { Decides result ((head.now.kind ≡ step.now.kind)
        × (head.now.number ≡ step.now.number)) }
{
    is_same_kind(head.kind, step.kind) && head.number == step.number
}

// Makes a call of a queue.
fn make(
    target: &mut Target,
    queue: u32,
    step: &Step,
    taken: u32,
    file: &CapsuleFile,
    buffer: &mut Buffer,
) -> Reply
    requires queue { HasQueue target.old queue }
    requires file { IsReadFile file.now }
    requires can { CanMake step.now.kind target.old queue step.now.number file.now }
    requires polls { IsNumbered step.now.kind step.now.number taken }
    requires room { MAX_TRANSFER ≤ buffer.old.room }
    ensures does { Simulates target.old (step_call queue (capsules_of file.now) taken step.now)
        result buffer.new.bytes target.new }
    ensures made { HasMade step.now.kind result target.new queue step.now.number file.now }
    ensures others { LeavesOthers queue target.old target.new }
    ensures room { buffer.new.room ≡ buffer.old.room }
{
    let number = step.number;
    match step.kind {
        Kind::Submit => {
            let capsule = &file.capsules[number as usize];
            submit(target, queue, number, &capsule.sqe, buffer)
        }
        Kind::Execute => {
            let payload = payload_of(&file.bytes, &file.capsules[number as usize]);
            execute(target, queue, number, payload, buffer)
        }
        Kind::Poll => poll(target, queue, buffer),
        Kind::Control => {
            let capsule = &file.capsules[number as usize];
            let payload = payload_of(&file.bytes, capsule);
            control(target, queue, number, &capsule.sqe, payload, buffer)
        }
    }
}

/// Makes the call of a queue's next record again: nothing where it agrees, else the first field
/// that differs. The cursor goes on behind it.
pub fn step_queue(
    target: &mut Target,
    queue: u32,
    file: &CapsuleFile,
    record: &Record,
    bytes: &[u8],
    at: &mut Cursor,
    buffer: &mut Buffer,
) -> Option<Field>
    requires queue { HasQueue target.old queue }
    requires file { IsReadFile file.now }
    requires ready { IsReady queue (capsules_of file.now) target.old at.old }
    requires blank { IsBlankUnlessAnswered record.now.head }
    requires whole { IsWholeIn bytes.now record.now }
    requires room { MAX_TRANSFER ≤ buffer.old.room }
    ensures steps { (t : model.Target) → StandsFor target.old t →
        Steps (next_call t queue (capsules_of file.now) (progress_at at.old)) t
        (entry_told queue (capsules_of file.now) at.old.taken (response_in bytes.now record.now))
        result target.new }
    ensures progress { result ≡ None → progress_at at.new ≡ after_entry (progress_at at.old)
        (entry_told queue (capsules_of file.now) at.old.taken (response_in bytes.now record.now)) }
    ensures ready { result ≡ None → IsReady queue (capsules_of file.now) target.new at.new }
    ensures others { result ≡ None → LeavesOthers queue target.old target.new }
    ensures room { result ≡ None → buffer.new.room ≡ buffer.old.room }
{
    let Some(step) = at.next(target, queue, file) else {
        return Some(Field::Order);
    };
    if !names(&record.head, &step) {
        return Some(Field::Order);
    }
    let reply = make(target, queue, &step, at.taken, file, buffer);
    at.advance(step.kind, &reply);
    difference(&record.head, record.data(bytes), &reply, buffer.bytes())
}
