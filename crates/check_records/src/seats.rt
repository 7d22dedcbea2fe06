// The records of all callers, and one place more of them made again.
ghost use Rattle.std.specs.Prelude.{◌≡◌, ◌≤◌, ◌<◌, Decides, None, length};
ghost use Rattle.mem_bdev.specs.declared.limits.TheConstants.{MAX_TRANSFER};
ghost use Rattle.tree_target.specs.Kept.{HasQueue, LeavesOthers};
ghost use Rattle.check_records.specs.Cursors.{IsReadFile, IsReady, capsules_of};
ghost use Rattle.check_records.specs.Seats.{AreRead, GoesBehind, MayStand, SeatSteps, responses_of};

use crate::cursor::{Cursor, Stage};
use crate::editor_steps::EditCursor;
use crate::queue_steps::step_queue;
use mem_bdev::Buffer;
use response_files::Record;
use run_transcript::CapsuleFile;
use run_verdicts::Field;
use tree_target::Target;

/// A response file that was read: its bytes, and the records in them.
#[derive(Drop)]
pub struct Responses {
    pub bytes: Vec<u8>,
    pub records: Vec<Record>,
}

/// How many records of a queue were made again, and where the queue stands; how many calls its
/// front has, and the fronts of the queues before it.
#[derive(Clone, Copy, Debug, PartialEq, Eq)]
pub struct Seat {
    pub next: usize,
    pub cursor: Cursor,
    pub front: usize,
    pub earlier: usize,
}

/// How many lines of the journal were made again, and where the editor stands.
#[derive(Clone, Copy, Debug, PartialEq, Eq)]
pub struct Desk {
    pub next: usize,
    pub cursor: EditCursor,
}

// Whether the next call of a queue may have this place: a call of a front has its turn, and a final
// poll comes after all that is none.
fn may_stand(seat: &Seat, capsules: usize, place: u32, bound: u64) -> bool
    ensures { Decides result (MayStand seat.now capsules place bound) }
{
    let place = place as usize;
    if seat.next < seat.front && (place < seat.next || place - seat.next != seat.earlier) {
        return false;
    }
    let is_final = matches!(seat.cursor.stage, Stage::Ready | Stage::Ended)
        && seat.cursor.taken as usize == capsules;
    !is_final || bound <= place as u64
}

/// Makes the next record of a queue, which has this place, again: nothing where the place agrees,
/// else its first field that differs.
pub fn step_seat(
    target: &mut Target,
    file: &CapsuleFile,
    responses: &Responses,
    queue: u32,
    place: u32,
    bound: u64,
    seat: &mut Seat,
    buffer: &mut Buffer,
) -> Option<Field>
    requires queue { HasQueue target.old queue }
    requires file { IsReadFile file.now }
    requires read { AreRead responses.now }
    requires some { seat.old.next < length responses.now.records.items }
    requires ready { IsReady queue (capsules_of file.now) target.old seat.old.cursor }
    requires room { MAX_TRANSFER ≤ buffer.old.room }
    ensures steps { SeatSteps queue (capsules_of file.now) (responses_of responses.now) place bound
        seat.old target.old result target.new }
    ensures next { result ≡ None → GoesBehind queue (capsules_of file.now)
        (responses_of responses.now) seat.old seat.new }
    ensures ready { result ≡ None →
        IsReady queue (capsules_of file.now) target.new seat.new.cursor }
    ensures others { result ≡ None → LeavesOthers queue target.old target.new }
    ensures room { result ≡ None → buffer.new.room ≡ buffer.old.room }
{
    if !may_stand(seat, file.capsules.len(), place, bound) {
        return Some(Field::Order);
    }
    let record = &responses.records[seat.next];
    seat.next += 1;
    step_queue(
        target,
        queue,
        file,
        record,
        &responses.bytes,
        &mut seat.cursor,
        buffer,
    )
}
