// The verdict on a finished run that was read.
ghost use Rattle.std.specs.Prelude.{◌≡◌, ◌<◌, ◌^◌, ◌++◌, ℕ, All, IfOk, IsTrue, List, MatchOption, None, length};
ghost use Rattle.tree_target.specs.Edits.{is_well_formed};
ghost use Rattle.tree_target.specs.Kept.{IsIdle};
ghost use Rattle.tree_target.specs.Stands.{StandsFor};
ghost use Rattle.run_inputs.specs.Known.{Known};
ghost use Rattle.run_verdicts.specs.Places.{ArePlaces, IsBadPlace, IsLowest};
ghost use Rattle.check_records.specs.Cursors.{IsReadFile};
ghost use Rattle.check_records.specs.Seats.{AreRead, all_responses, files_of};
ghost use Rattle.std.specs.List.{flat_map};
ghost use Rattle.response_files.specs.Responses.{Response};
ghost use Rattle.run_check.specs.Finished.{lines_of, number_by};
ghost use Rattle.run_check.specs.ToldRun.{finished_of};
ghost use Rattle.run_check.specs.Pieces.{line_places, response_places};
ghost use Rattle.run_check.specs.Verdicts.{IsJudged};

use crate::bounds::bound_of;
use crate::first_seats::first_seats;
use crate::places::sorted_places;
use crate::records::Records;
use check_records::{Responses, judge, lowest_bad};
use journal_text::JournalLine;
use mem_bdev::{Buffer, MAX_TRANSFER};
use response_files::Journal;
use run_transcript::{CapsuleFile, ScriptEdit};
use run_verdicts::{Field, Verdict};
use std::alloc::{AllocError, Global};
use tree_target::Target;

// The lines of a journal; none without one.
fn lines_of(journal: &Option<Journal>) -> &[JournalLine]
    ensures { result.now ≡ lines_of journal.now }
{
    match journal {
        Some(journal) => journal.lines.as_slice(),
        None => &[],
    }
}

// How many places a run has, by its journal or by how many records and lines there are.
fn number_of(journal: &Option<Journal>, count: u32) -> u32
    ensures { (responses : List (List Response)) → (journal.now ≡ None → count ≡ length (flat_map (λ rs. rs) responses))
        → result ≡ number_by journal.now responses }
{
    match journal {
        Some(journal) => journal.places,
        None => count,
    }
}

// How many places a run has, and the lowest that is missing, doubled or out of range.
#[derive(Drop)]
struct Placing {
    number: u32,
    bad: Option<u32>,
}

fn place_all(alloc: Global, records: &Records) -> Result<Placing, AllocError>
    ensures number { IfOk result (λ p. p.number
        ≡ number_by records.now.journal (all_responses records.now.responses.items)) }
    ensures bad { IfOk result (λ p. MatchOption p.bad
        (ArePlaces p.number (line_places (lines_of records.now.journal)
        ++ response_places records.now.responses.items))
        (λ b. IsLowest (IsBadPlace p.number (line_places (lines_of records.now.journal)
        ++ response_places records.now.responses.items)) b)) }
    ensures few { IfOk result (λ p. All (λ r. length r.records.items < 2 ^ 32)
        records.now.responses.items) }
{
    let lines = lines_of(&records.journal);
    let places = sorted_places(alloc, &records.responses, lines)?;
    let number = number_of(&records.journal, places.len() as u32);
    let bad = lowest_bad(&places, number);
    Ok(Placing { number, bad })
}

/// Judges a finished run: its target stands at its start, and its script, its capsules and its records
/// were read.
pub fn judge_finished(
    alloc: Global,
    target: &mut Target,
    script: &[ScriptEdit],
    files: &[CapsuleFile],
    records: &Records,
) -> Result<Verdict, AllocError>
    requires well_formed { All (λ s. IsTrue (is_well_formed s.edit)) script.now }
    requires files { All IsReadFile files.now }
    requires read { All AreRead records.now.responses.items }
    requires same { length records.now.responses.items ≡ length files.now }
    requires queues { length target.old.bindings ≡ length files.now }
    requires few { length files.now < 65536 }
    requires idle { (queue : ℕ) → IsIdle target.old queue }
    ensures { IfOk result (λ v. (s : Known) → StandsFor target.old s.start →
        s.script ≡ script.now → s.files ≡ files_of files.now →
        IsJudged (finished_of s records.now) v) }
{
    let placing = place_all(alloc, records)?;
    let n = placing.number;
    if let Some(place) = placing.bad {
        return Ok(Verdict::NotLegal {
            place,
            field: Field::Place,
        });
    }
    let lines = lines_of(&records.journal);
    let bound = bound_of(files, &records.responses, lines);
    let mut seats = first_seats(alloc, files)?;
    let mut buffer = Buffer::with_room(alloc, MAX_TRANSFER)?;
    judge(
        alloc,
        target,
        script,
        files,
        &records.responses,
        lines,
        n,
        bound,
        &mut seats,
        &mut buffer,
    )
}
