// The lines of a script, one after another.
ghost use Rattle.std.specs.Prelude.{◌≡◌, ◌≤◌, ◌&&◌, nat_le, length};
ghost use Rattle.std.specs.List.{list_all};
ghost use Rattle.text_lines.specs.Lines.{is_passed_over};
ghost use Rattle.script_lines.specs.Script.{is_printable, is_text, script_words};
ghost use Rattle.script_lines.specs.Reading.{Gives, Leaves, lines_in, line_taken};
ghost use Rattle.script_lines.specs.declared.lines.LineError.TheVariants.{Memory};

use crate::words::read_words;
use lists::items::Items;
use mem_bdev::Name;
use plan_files::What;
use std::alloc::{AllocError, AllocFailed, Global};
use text_lines::{cut_line, is_passed_over};
use thiserror::Error;

/// How many lines a script has at most, those that are passed over among them.
pub const MAX_LINES: u32 = 65_536;

/// How many bytes a line of a script has at most, without its end.
pub const MAX_LINE_BYTES: usize = 1_024;

/// A line of a script that isn't passed over.
#[derive(Debug, Drop)]
pub struct Line {
    /// Its number in the script, from 1; lines that are passed over are counted too.
    pub number: u32,
    /// What stands between its spaces. Of a line that begins with `set` there are at most four words: the fourth is the
    /// value, all that follows the space after the attribute, and empty where nothing follows.
    pub words: Items<Name>,
}

/// Why a script was not read.
#[derive(Clone, Copy, Debug, PartialEq, Eq, Error)]
pub enum LineError {
    /// The first line that isn't passed over and has more than 1,024 bytes, or a byte outside 20h to 7Eh. Its number
    /// counts from 1.
    #[error("line {line} is bad")]
    BadLine { line: u32 },
    /// The script has more than 65,536 lines, and none of these is bad; the count is 65,537.
    #[error("the limit on {what} is passed: {count}")]
    TooLong { what: What, count: u64 },
    /// No memory for the lines.
    #[error("out of memory")]
    Memory,
}

impl From<AllocError> for LineError {
    ghost from_gives = { λ _ e. e ≡ Memory };

    fn from(_e: AllocError) -> LineError {
        LineError::Memory
    }
}

impl<T: Drop> From<AllocFailed<T>> for LineError {
    ghost from_gives = { λ _ e. e ≡ Memory };

    fn from(_e: AllocFailed<T>) -> LineError {
        LineError::Memory
    }
}

// Whether all bytes are from 20h to 7Eh.
fn all_printable(line: &[u8]) -> bool
    ensures { result ≡ list_all is_printable line.now }
{
    line.iter().all(|b| b' ' <= *b && *b <= b'~')
}

// Whether a line has at most 1,024 bytes, each from 20h to 7Eh.
#[tactic(auto, unfolding(crate::specs::Script::is_text))]
fn is_text(line: &[u8]) -> bool
    ensures { result ≡ is_text line.now }
{
    line.len() <= MAX_LINE_BYTES && all_printable(line)
}

// Adds a line, unless it is passed over.
#[tactic(auto, unfolding(crate::specs::Reading::line_taken))]
fn take_line(
    alloc: Global,
    number: u32,
    line: &[u8],
    lines: &mut Vec<Line>,
) -> Result<(), LineError>
    ensures { Leaves lines.new.items result (line_taken number lines.old.items line.now) }
{
    if is_passed_over(line) {
        return Ok(());
    }
    if !is_text(line) {
        return Err(LineError::BadLine { line: number });
    }
    let words = read_words(alloc, line)?;
    lines.push(Line { number, words })?;
    Ok(())
}

/// The lines of a script that aren't passed over, which are those that are empty or begin with `#`.
///
/// The answer is exact: the lines, or the first that isn't passed over and has more than 1,024 bytes or a byte outside 20h
/// to 7Eh; or, where none of the first 65,536 lines is such a one, that there are more than so many.
pub fn read_lines(alloc: Global, bytes: &[u8]) -> Result<Vec<Line>, LineError>
    ensures exact { Gives (λ v. v.items) result (lines_in bytes.now) }
{
    let mut lines = Vec::new(alloc);
    let mut number = 0;
    let mut rest = bytes;
    while !rest.is_empty() {
        let (line, after) = cut_line(rest);
        if number >= MAX_LINES {
            return Err(LineError::TooLong {
                what: What::Lines,
                count: u64::from(MAX_LINES) + 1,
            });
        }
        number += 1;
        take_line(alloc, number, line, &mut lines)?;
        rest = after;
    }
    Ok(lines)
}
