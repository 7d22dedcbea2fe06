// From which place on all that is no final poll stands below.
ghost use Rattle.std.specs.Prelude.{◌≡◌, ◌<◌, ◌≤◌, ◌^◌, ◌↔◌, ◌+◌, ◌&&◌, ℕ, All, List, length, true, false};
ghost use Rattle.plan_files.specs.Capsules.{Capsule};
ghost use Rattle.response_files.specs.Responses.{response_in};
ghost use Rattle.run_transcript.specs.Turns.{after_entry};
ghost use Rattle.check_records.specs.Told.{entry_told, reply_told};
ghost use Rattle.run_transcript.specs.Served.{is_final};
ghost use Rattle.check_records.specs.Cursors.{capsules_of, progress_at};
ghost use Rattle.check_records.specs.Seats.{all_responses, files_of, responses_of};
ghost use Rattle.run_check.specs.Pieces.{Adds, AreBodiesBelow, AreLinesBelow, IsBodyBelow, is_poll_kind};

use crate::places::place_of_line;
use check_records::{Cursor, Responses, Stage};
use journal_text::JournalLine;
use response_files::Record;
use run_records::{Answer, Head, Kind};
use run_transcript::CapsuleFile;
use tree_target::Reply;

// The place behind this one, where that is later.
fn behind(bound: u64, place: u32) -> u64
    ensures { (p : ℕ) → (result ≤ p) ↔ ((bound ≤ p) × (place < p)) }
{
    let next = u64::from(place) + 1;
    if bound < next { next } else { bound }
}

// The place behind all lines of a journal.
fn bound_of_lines(lines: &[JournalLine]) -> u64
    ensures { (p : ℕ) → (result ≤ p) ↔ AreLinesBelow p lines.now }
{
    let mut bound = 0;
    for line in lines {
        bound = behind(bound, place_of_line(line));
    }
    bound
}

// The reply that a record tells.
fn reply_told(head: &Head) -> Reply
    ensures { result ≡ reply_told head.now.answer head.now.cqe }
{
    match head.answer {
        Answer::Held => Reply::Held,
        Answer::Answered => Reply::Answered(head.cqe),
        Answer::Waiting => Reply::Waiting,
        Answer::NoEvent => Reply::NoEvent,
    }
}

// Whether a queue of so many capsules has nothing left to serve.
fn is_final(cursor: &Cursor, capsules: usize) -> bool
    ensures { result ≡ is_final capsules (progress_at cursor.now) }
{
    match cursor.stage {
        Stage::Ready | Stage::Ended => cursor.taken as usize == capsules,
        Stage::Holding | Stage::Through => false,
    }
}

// Whether a record of this kind is a final poll of a queue of so many capsules.
fn is_final_poll(kind: Kind, cursor: &Cursor, capsules: usize) -> bool
    ensures { result ≡ (is_poll_kind kind && is_final capsules (progress_at cursor.now)) }
{
    match kind {
        Kind::Poll => is_final(cursor, capsules),
        Kind::Submit | Kind::Execute | Kind::Control => false,
    }
}

// The place behind this one, where that is later and the record no final poll.
fn behind_unless(is_final: bool, bound: u64, place: u32) -> u64
    ensures last { is_final ≡ true → result ≡ bound }
    ensures other { is_final ≡ false → (p : ℕ)
        → (result ≤ p) ↔ ((bound ≤ p) × (place < p)) }
{
    if is_final {
        return bound;
    }
    behind(bound, place)
}

// Goes on behind a record of a queue of so many capsules.
fn behind_record(record: &Record, capsules: usize, cursor: &mut Cursor, bound: u64) -> u64
    requires { cursor.old.taken < 4294967295 }
    ensures adds { Adds (is_poll_kind record.now.head.kind
        && is_final capsules (progress_at cursor.old)) record.now.head.place bound result }
    ensures progress { (bytes : List ℕ) (queue : ℕ) (file : List Capsule) →
        progress_at cursor.new ≡ after_entry (progress_at cursor.old)
        (entry_told queue file cursor.old.taken (response_in bytes record.now)) }
    ensures few { cursor.new.taken ≤ cursor.old.taken + 1 }
{
    let last = is_final_poll(record.head.kind, cursor, capsules);
    let to = behind_unless(last, bound, record.head.place);
    cursor.advance(record.head.kind, &reply_told(&record.head));
    to
}

// The place behind this one and all records of a queue that are no final poll.
fn bound_of_queue(file: &CapsuleFile, responses: &Responses, bound: u64) -> u64
    requires { length responses.now.records.items < 2 ^ 32 }
    ensures { (queue p : ℕ) → (result ≤ p) ↔ ((bound ≤ p)
        × IsBodyBelow p queue (capsules_of file.now) (responses_of responses.now)) }
{
    let mut to = bound;
    let mut cursor = Cursor {
        taken: 0,
        stage: Stage::Ready,
    };
    for i in 0..responses.records.len() {
        to = behind_record(&responses.records[i], file.capsules.len(), &mut cursor, to);
    }
    to
}

/// The place from which on all lines of the journal, and all records that are no final poll, stand
/// below.
pub(crate) fn bound_of(files: &[CapsuleFile], responses: &[Responses], lines: &[JournalLine]) -> u64
    requires same { length responses.now ≡ length files.now }
    requires few { All (λ r. length r.records.items < 2 ^ 32) responses.now }
    ensures { (p : ℕ) → (result ≤ p) ↔ (AreLinesBelow p lines.now
        × AreBodiesBelow p 1 (files_of files.now) (all_responses responses.now)) }
{
    let mut bound = bound_of_lines(lines);
    for i in 0..files.len() {
        bound = bound_of_queue(&files[i], &responses[i], bound);
    }
    bound
}
