// The journal of a finished run.
ghost use Rattle.std.specs.Prelude.{◌≡◌, ◌≤◌, ◌≢◌, ◌+◌, ℕ, Ok, Err, IfOk, IfErr, length};
ghost use Rattle.text_lines.specs.Lines.{lines_of};
ghost use Rattle.response_files.specs.Journals.{IsFirstBad, IsJournal};
ghost use Rattle.response_files.specs.JournalReading.{Gives, calls_from, journal_after_head, journal_in};
ghost use Rattle.response_files.specs.declared.journal.Journal as file;
ghost use Rattle.response_files.specs.declared.journal.JournalError.TheVariants.{BadLine, Memory};

use crate::journal_lines::{call, places};
use journal_text::JournalLine;
use lists::items::Items;
use std::alloc::{AllocError, Global};
use text_lines::cut_line;
use thiserror::Error;

/// What a journal says.
#[derive(Debug, Drop)]
pub struct Journal {
    /// How many places the run has.
    pub places: u32,
    /// The calls of the editor, in the order of the text.
    pub lines: Items<JournalLine>,
}

/// Why a journal was not read.
#[derive(Clone, Copy, Debug, PartialEq, Eq, Error)]
pub enum JournalError {
    /// The first line that isn't what it may be, counted from 1: the head, the number of places, or
    /// a call of the editor. A first or second line that is missing is bad too.
    #[error("line {line} is bad")]
    BadLine { line: u64 },
    /// No memory for the lines.
    #[error("out of memory")]
    Memory,
}

impl From<AllocError> for JournalError {
    ghost from_gives = { λ _ e. e ≡ Memory };

    fn from(_e: AllocError) -> JournalError {
        JournalError::Memory
    }
}

fn bad_line(line: u64) -> JournalError
    ensures { result ≡ BadLine line }
{
    JournalError::BadLine { line }
}

// The calls that the lines after the second say, or the first bad one of them.
fn calls(alloc: Global, bytes: &[u8]) -> Result<Items<JournalLine>, JournalError>
    requires { length bytes.now + 2 ≤ usize.MAX }
    ensures { Gives result (calls_from 3 (lines_of bytes.now)) }
{
    let mut lines = Items::new(alloc);
    let mut number = 2;
    let mut rest = bytes;
    while !rest.is_empty() {
        let (line, after) = cut_line(rest);
        number += 1;
        let Some(call) = call(line) else {
            return Err(bad_line(number));
        };
        lines.push(call)?;
        rest = after;
    }
    Ok(lines)
}

// What the lines after the head say, or the first bad one of them.
fn journal_after_head(alloc: Global, bytes: &[u8]) -> Result<Journal, JournalError>
    requires { length bytes.now + 1 ≤ usize.MAX }
    ensures { Gives result (journal_after_head (lines_of bytes.now)) }
{
    if bytes.is_empty() {
        return Err(bad_line(2));
    }
    let (line, rest) = cut_line(bytes);
    let Some(places) = places(line) else {
        return Err(bad_line(2));
    };
    let lines = calls(alloc, rest)?;
    Ok(Journal { places, lines })
}

// What a journal says, or its first bad line.
#[tactic(auto, unfolding(crate::specs::JournalReading::journal_in))]
fn whole_journal(alloc: Global, bytes: &[u8]) -> Result<Journal, JournalError>
    ensures { Gives result (journal_in bytes.now) }
{
    if bytes.is_empty() {
        return Err(bad_line(1));
    }
    let (head, rest) = cut_line(bytes);
    if head != b"nvmet-journal 1".as_slice() {
        return Err(bad_line(1));
    }
    journal_after_head(alloc, rest)
}

/// What a journal says: the number of places of its run, and a line for each call of the editor. Its
/// last line may lack its end.
///
/// The answer is exact: the journal, or the number of its first bad line. Which places and lines of
/// the script the calls name isn't looked at.
pub fn read_journal(alloc: Global, bytes: &[u8]) -> Result<Journal, JournalError>
    // What is read is printed so.
    ensures spelled { IfOk result (λ j. IsJournal bytes.now j) }
    // What is printed so is read, unless memory runs out.
    ensures only { (j : file.Journal) → IsJournal bytes.now j → Gives result (Ok j) }
    // Which fault it is.
    ensures exact { Gives result (journal_in bytes.now) }
    // The error is the first bad line, and the first bad line the error, unless memory runs out.
    ensures fault { IfErr result (λ e. e ≢ Memory
        → (line : ℕ) × (e ≡ BadLine line) × IsFirstBad bytes.now line) }
    ensures faults { (line : ℕ) → IsFirstBad bytes.now line → Gives result (Err (BadLine line)) }
{
    whole_journal(alloc, bytes)
}
