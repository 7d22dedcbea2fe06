// Whether callers have a call left, and a whole run made again.
ghost use Rattle.std.specs.Prelude.{◌≡◌, ◌≤◌, ◌<◌, All, IfOk, IsTrue, None, true, false, length, ℕ};
ghost use Rattle.mem_bdev.specs.declared.limits.TheConstants.{MAX_TRANSFER};
ghost use Rattle.tree_target.specs.Edits.{is_well_formed};
ghost use Rattle.tree_target.specs.Model as model;
ghost use Rattle.tree_target.specs.Stands.{StandsFor};
ghost use Rattle.run_transcript.specs.Runs.{Run};
ghost use Rattle.run_transcript.specs.Turns.{next_edit};
ghost use Rattle.run_verdicts.specs.Places.{ArePlaces};
ghost use Rattle.run_verdicts.specs.Nexts.{places_of, told};
ghost use Rattle.run_verdicts.specs.Faults.{Judges};
ghost use Rattle.check_records.specs.Told.{IsTold};
ghost use Rattle.check_records.specs.Cursors.{IsReadFile};
ghost use Rattle.check_records.specs.Editors.{editing_at};
ghost use Rattle.check_records.specs.Seats.{AreEnded, AreFresh, AreInside, AreRead, AreSeated, HasOneLeft, IsBound, all_responses, files_of};

use crate::editor_steps::{EditCursor, open_drain};
use crate::replay::step_place;
use crate::seats::{Desk, Responses, Seat};
use journal_text::JournalLine;
use mem_bdev::Buffer;
use run_transcript::{CapsuleFile, ScriptEdit};
use run_verdicts::{Field, Verdict};
use std::alloc::{AllocError, Global};
use tree_target::Target;

// Whether the editor has no call left.
fn is_editor_done(target: &Target, script: &[ScriptEdit], at: &EditCursor) -> bool
    ensures done { result ≡ true → (t : model.Target) → StandsFor target.now t →
        next_edit t script.now (editing_at script.now at.now) ≡ None }
    ensures left { result ≡ false → (t : model.Target) → StandsFor target.now t →
        next_edit t script.now (editing_at script.now at.now) ≡ None → ⊥ }
{
    match open_drain(target, script, at) {
        Some(_) => false,
        None => script.len() <= at.made,
    }
}

// Whether no queue has a call left.
fn are_queues_done(target: &Target, files: &[CapsuleFile], seats: &[Seat]) -> bool
    requires same { length seats.now ≡ length files.now }
    requires few { length files.now < 65536 }
    requires inside { AreInside files.now seats.now }
    ensures done { result ≡ true → AreEnded target.now files.now seats.now }
    ensures left { result ≡ false → HasOneLeft target.now files.now seats.now }
{
    for q in 0..files.len() {
        if seats[q]
            .cursor
            .next(target, q as u32 + 1, &files[q])
            .is_some()
        {
            return false;
        }
    }
    true
}

/// Makes a whole run again, place after place: whether it is right, or its first fault. The places
/// of all records and lines are the numbers below `n`, each once (`lowest_bad` tells); `bound` is
/// the place from which on all that is no final poll stands below. The seats stand at the start.
pub fn judge(
    alloc: Global,
    target: &mut Target,
    script: &[ScriptEdit],
    files: &[CapsuleFile],
    responses: &[Responses],
    journal: &[JournalLine],
    n: u32,
    bound: u64,
    seats: &mut [Seat],
    buffer: &mut Buffer,
) -> Result<Verdict, AllocError>
    requires well_formed { All (λ s. IsTrue (is_well_formed s.edit)) script.now }
    requires files { All IsReadFile files.now }
    requires read { All AreRead responses.now }
    requires same { length responses.now ≡ length files.now }
    requires seats { length seats.old ≡ length files.now }
    requires queues { length target.old.bindings ≡ length files.now }
    requires few { length files.now < 65536 }
    requires seated { AreSeated target.old (files_of files.now) (all_responses responses.now)
        seats.old }
    requires fresh { AreFresh seats.old }
    requires room { MAX_TRANSFER ≤ buffer.old.room }
    ensures judges { IfOk result (λ v. (run : Run) →
        IsTold n run script.now (files_of files.now) (all_responses responses.now) journal.now →
        IsBound run bound → ArePlaces n (places_of (told run)) →
        StandsFor target.old run.start → Judges n run v) }
{
    let mut desk = Desk {
        next: 0,
        cursor: EditCursor {
            made: 0,
            open: None,
        },
    };
    for place in 0..n {
        let found = step_place(
            alloc, target, script, files, responses, journal, place, bound, seats, &mut desk,
            buffer,
        )?;
        match found {
            Some(field) => return Ok(Verdict::NotLegal { place, field }),
            None => {}
        }
    }
    if is_editor_done(target, script, &desk.cursor) && are_queues_done(target, files, seats) {
        return Ok(Verdict::Legal { places: n });
    }
    Ok(Verdict::NotLegal {
        place: n,
        field: Field::Order,
    })
}
