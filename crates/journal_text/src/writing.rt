// Writing a journal into room that was found before.
ghost use Rattle.std.specs.Prelude.{◌≡◌, ◌≤◌, ◌<◌, ◌+◌, ◌*◌, ◌^◌, ◌++◌, ◌∷◌, [], codes, drop, length, IsTrue, List, ℕ};
ghost use Rattle.std.specs.Fmt.{decimal};
ghost use Rattle.std.specs.List.{flat_map};
ghost use Rattle.mem_bdev.specs.Texts.{HasRoom, appended};
ghost use Rattle.journal_text.specs.Rooms.{dones_in, edits_in, is_within, journal_room, line_room, lines_room, room_of};
ghost use Rattle.journal_text.specs.declared.lines.JournalLine.{JournalLine};
ghost use Rattle.journal_text.specs.Text.{answer_word, call_text, done_text, edit_text, head_text, journal_text, line_text};

use crate::lines::{Answer, JournalLine};
use itoa::Buffer as Digits;
use mem_bdev::Buffer;

/// The most bytes of a journal's first two lines.
pub const HEAD_BYTES: usize = 34;

/// The most bytes of the line of an edit.
pub const EDIT_BYTES: usize = 37;

/// The most bytes of the line of a drain that ended.
pub const DONE_BYTES: usize = 27;

// Appends a space and a number, for which there is room.
fn put_number(number: u32, to: &mut Buffer)
    requires { HasRoom to.old (length (32 ∷ decimal number)) }
    ensures { to.new ≡ appended to.old (32 ∷ decimal number) }
{
    let mut digits = Digits::new();
    to.put(b" ");
    to.put(digits.format(number).as_bytes());
}

// Appends a word, a place and the number of a line, for which there is room.
fn put_call(word: &[u8], place: u32, line: u32, to: &mut Buffer)
    requires { HasRoom to.old (length (call_text word.now place line)) }
    ensures { to.new ≡ appended to.old (call_text word.now place line) }
{
    to.put(word);
    put_number(place, to);
    put_number(line, to);
}

// The word for an answer.
fn answer_word(answer: Answer) -> &'static str
    ensures { result.now ≡ answer_word answer }
{
    match answer {
        Answer::Accepted => "ok",
        Answer::Refused(errno) => errno.name(),
    }
}

// Appends the text of an edit, for which there is room.
fn put_edit_text(place: u32, line: u32, answer: Answer, to: &mut Buffer)
    requires { HasRoom to.old (length (edit_text place line answer)) }
    ensures { to.new ≡ appended to.old (edit_text place line answer) }
{
    put_call(b"edit", place, line, to);
    to.put(b" ");
    to.put(answer_word(answer).as_bytes());
    to.put(b"\n");
}

// Appends the text of the end of a drain, for which there is room.
fn put_done_text(place: u32, line: u32, to: &mut Buffer)
    requires { HasRoom to.old (length (done_text place line)) }
    ensures { to.new ≡ appended to.old (done_text place line) }
{
    put_call(b"done", place, line, to);
    to.put(b"\n");
}

// Appends the line of an edit, for which there is the room that it needs at most.
fn put_edit(place: u32, line: u32, answer: Answer, to: &mut Buffer)
    requires { HasRoom to.old EDIT_BYTES }
    ensures appended { to.new ≡ appended to.old (edit_text place line answer) }
    ensures short { length (edit_text place line answer) ≤ EDIT_BYTES }
{
    put_edit_text(place, line, answer, to);
}

// Appends the line of a drain that ended, for which there is the room that it needs at most.
fn put_done(place: u32, line: u32, to: &mut Buffer)
    requires { HasRoom to.old DONE_BYTES }
    ensures appended { to.new ≡ appended to.old (done_text place line) }
    ensures short { length (done_text place line) ≤ DONE_BYTES }
{
    put_done_text(place, line, to);
}

/// Appends a line of a journal, for which there is room: `EDIT_BYTES` for an edit, `DONE_BYTES` for
/// a drain that ended. Takes no memory.
pub fn put_line(line: &JournalLine, to: &mut Buffer)
    requires { HasRoom to.old (line_room line.now) }
    ensures appended { to.new ≡ appended to.old (line_text line.now) }
    ensures short { length (line_text line.now) ≤ line_room line.now }
{
    match line {
        JournalLine::Edit {
            place,
            line,
            answer,
        } => put_edit(*place, *line, *answer, to),
        JournalLine::Done { place, line } => put_done(*place, *line, to),
    }
}

// Appends lines, for which there is room.
fn put_lines(lines: &[JournalLine], to: &mut Buffer)
    requires { HasRoom to.old (lines_room lines.now) }
    ensures { to.new ≡ appended to.old (flat_map line_text lines.now) }
{
    for line in lines {
        put_line(line, to);
    }
}

// Appends the first two lines, for which there is room.
fn put_head(places: u32, to: &mut Buffer)
    requires { HasRoom to.old (length (head_text places)) }
    ensures appended { to.new ≡ appended to.old (head_text places) }
    ensures short { length (head_text places) ≤ HEAD_BYTES }
{
    to.put(b"nvmet-journal 1\nplaces");
    put_number(places, to);
    to.put(b"\n");
}

/// Appends the journal of a run with so many places, for which there is room: `HEAD_BYTES`, and
/// what each line needs (`are_within`, `room` and `journals_fit` tell). Takes no memory.
pub fn put_journal(places: u32, lines: &[JournalLine], to: &mut Buffer)
    requires { HasRoom to.old (journal_room lines.now) }
    ensures { to.new ≡ appended to.old (journal_text places lines.now) }
{
    put_head(places, to);
    put_lines(lines, to);
}

/// The room of a journal of so many edits, each with the end of its drain. A script has at most
/// 65,536 lines.
pub fn room(edits: u32) -> usize
    ensures { result ≡ room_of edits }
{
    HEAD_BYTES + edits as usize * (EDIT_BYTES + DONE_BYTES)
}

// How many lines are of edits.
fn edits(lines: &[JournalLine]) -> usize
    ensures { result ≡ edits_in lines.now }
{
    let mut count = 0;
    for line in lines {
        if matches!(line, JournalLine::Edit { .. }) {
            count += 1;
        }
    }
    count
}

// How many lines are of drains that ended.
fn dones(lines: &[JournalLine]) -> usize
    ensures { result ≡ dones_in lines.now }
{
    let mut count = 0;
    for line in lines {
        if matches!(line, JournalLine::Done { .. }) {
            count += 1;
        }
    }
    count
}

/// Whether at most so many lines are of edits, and at most so many of drains that ended.
pub fn are_within(lines: &[JournalLine], most: u32) -> bool
    ensures { result ≡ is_within lines.now most }
{
    edits(lines) <= most as usize && dones(lines) <= most as usize
}

/// A law, with nothing to run: the journal of at most so many edits, with the ends of at most so
/// many drains, needs no more than the room of so many edits.
pub fn journals_fit()
    ensures { (lines : List JournalLine) (edits : ℕ) → IsTrue (is_within lines edits)
        → journal_room lines ≤ room_of edits }
{}
