// Places, made again one after another.
ghost use Rattle.std.specs.Prelude.{◌≡◌, ◌≤◌, ◌<◌, ◌+◌, All, Decides, IfOk, IfSome, IsTrue, None, Some, length, slice_get, ℕ};
ghost use Rattle.mem_bdev.specs.declared.limits.TheConstants.{MAX_TRANSFER};
ghost use Rattle.tree_target.specs.Edits.{is_well_formed};
ghost use Rattle.tree_target.specs.Kept.{LeavesOthers};
ghost use Rattle.tree_target.specs.Stands.{StandsFor};
ghost use Rattle.run_transcript.specs.Runs.{Run, target_at};
ghost use Rattle.check_records.specs.Told.{IsTold};
ghost use Rattle.check_records.specs.Cursors.{IsReadFile};
ghost use Rattle.check_records.specs.Seats.{AreRead, AreSeated, DeskSteps, Goes, IsAtDesk, IsBehindLine, IsBound, Laid, all_responses, desk_place, files_of, index_of, place_in, seat_place};

use crate::editor_steps::step_edit;
use crate::seats::{Desk, Responses, Seat, step_seat};
use journal_text::JournalLine;
use mem_bdev::Buffer;
use response_files::Record;
use run_transcript::{CapsuleFile, ScriptEdit};
use run_verdicts::Field;
use std::alloc::{AllocError, Global};
use tree_target::Target;

// The place of the next record.
fn next_place(records: &[Record], next: usize) -> Option<u32>
    ensures { result ≡ place_in records.now next }
{
    let record = records.get(next)?;
    Some(record.head.place)
}

// The queue, from 0, whose next record has this place.
fn seat_at(seats: &[Seat], responses: &[Responses], place: u32) -> Option<usize>
    requires { length seats.now ≡ length responses.now }
    ensures found { IfSome result (λ q. (q < length seats.now)
        × (seat_place seats.now responses.now q ≡ Some place)) }
    ensures none { result ≡ None → (q : ℕ) →
        seat_place seats.now responses.now q ≡ Some place → ⊥ }
{
    for q in 0..seats.len() {
        if next_place(&responses[q].records, seats[q].next) == Some(place) {
            return Some(q);
        }
    }
    None
}

// Whether the journal's next line has this place.
fn is_editors(journal: &[JournalLine], desk: &Desk, place: u32) -> bool
    ensures { Decides result (desk_place journal.now desk.now ≡ Some place) }
{
    match journal.get(desk.next) {
        None => false,
        Some(JournalLine::Edit { place: at, .. }) | Some(JournalLine::Done { place: at, .. }) => {
            *at == place
        }
    }
}

// Makes the journal's next line, which has this place, again.
fn step_desk(
    alloc: Global,
    target: &mut Target,
    script: &[ScriptEdit],
    journal: &[JournalLine],
    desk: &mut Desk,
) -> Result<Option<Field>, AllocError>
    requires well_formed { All (λ s. IsTrue (is_well_formed s.edit)) script.now }
    requires some { desk.old.next < length journal.now }
    ensures steps { IfOk result (λ o. DeskSteps script.now (slice_get journal.now desk.old.next)
        desk.old.cursor target.old o target.new) }
    ensures next { IfOk result (λ o. o ≡ None →
        (desk.new.next ≡ desk.old.next + 1)
        × IsBehindLine script.now (slice_get journal.now desk.old.next) desk.old.cursor
        desk.new.cursor) }
    ensures others { IfOk result (λ o. o ≡ None → LeavesOthers 0 target.old target.new) }
{
    let line = &journal[desk.next];
    desk.next += 1;
    step_edit(alloc, target, script, line, &mut desk.cursor)
}

/// Makes the entry with this place again, whoever's next entry it is: nothing where the place
/// agrees, else the first field that differs. All places below agree. From the place `bound` on all
/// that is no final poll stands below. The seats are those of queues 1, 2, .. and stand behind what
/// was made again; where nothing is answered they go on by this entry. On want of memory the target
/// and the seats are lost. The buffer has room for one transfer.
pub fn step_place(
    alloc: Global,
    target: &mut Target,
    script: &[ScriptEdit],
    files: &[CapsuleFile],
    responses: &[Responses],
    journal: &[JournalLine],
    place: u32,
    bound: u64,
    seats: &mut [Seat],
    desk: &mut Desk,
    buffer: &mut Buffer,
) -> Result<Option<Field>, AllocError>
    requires well_formed { All (λ s. IsTrue (is_well_formed s.edit)) script.now }
    requires files { All IsReadFile files.now }
    requires read { All AreRead responses.now }
    requires same { length responses.now ≡ length files.now }
    requires seats { length seats.old ≡ length files.now }
    requires queues { length target.old.bindings ≡ length files.now }
    requires few { length files.now < 65536 }
    requires seated { AreSeated target.old (files_of files.now) (all_responses responses.now)
        seats.old }
    requires desk { IsAtDesk script.now journal.now desk.old }
    requires room { MAX_TRANSFER ≤ buffer.old.room }
    ensures goes { IfOk result (λ o. (n : ℕ) (run : Run) →
        IsTold n run script.now (files_of files.now) (all_responses responses.now) journal.now →
        IsBound run bound → place < n →
        Laid n place run (index_of desk.old.next seats.old) →
        StandsFor target.old (target_at run place) →
        Goes n place run o target.new (index_of desk.new.next seats.new)) }
    ensures seated { IfOk result (λ o. o ≡ None → AreSeated target.new (files_of files.now)
        (all_responses responses.now) seats.new) }
    ensures desk { IfOk result (λ o. o ≡ None → IsAtDesk script.now journal.now desk.new) }
    ensures queues { IfOk result (λ o. o ≡ None →
        length target.new.bindings ≡ length target.old.bindings) }
    ensures room { IfOk result (λ o. o ≡ None → buffer.new.room ≡ buffer.old.room) }
{
    if is_editors(journal, desk, place) {
        let found = step_desk(alloc, target, script, journal, desk)?;
        return Ok(found);
    }
    let Some(q) = seat_at(seats, responses, place) else {
        return Ok(Some(Field::Order));
    };
    let mut seat = seats[q];
    let queue = q as u32 + 1;
    let found = step_seat(
        target,
        &files[q],
        &responses[q],
        queue,
        place,
        bound,
        &mut seat,
        buffer,
    );
    seats[q] = seat;
    Ok(found)
}
